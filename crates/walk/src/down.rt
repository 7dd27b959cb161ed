// A walk from a root, by branches of any kind. That the slots and the faces have one k is asked here and by the other engines: a value of both would be made
// for the one call that asks.
ghost use Rattle.std.specs.Prelude.{◌≡◌, length};
ghost use Rattle.region.specs.Told.{region_of};
ghost use Rattle.walk.specs.Down.{WalkedDown};

use crate::Tally;
use crate::branches::Branches;
use crate::parts::branch;
use descent::runs::Run;
use descent::slots::Slots;
use region::faces::faces_table;
use region::live::all_faces;
use region::tested::TestedFaces;

// Lists the numbers of all slots, whose branch the root is. The root is judged like any branch.
pub fn walk_down<B: Branches>(
    branches: &B,
    slots: &Slots,
    root: Run,
    faces: &TestedFaces,
    list: &mut [u32],
) -> Tally
    requires goes { B.goes branches.now slots.now root }
    requires start { root.start ≡ 0 }
    requires root_length { root.length ≡ length slots.now.order.now }
    requires same_k { faces.now.k ≡ slots.now.k }
    requires list_len { length list.old ≡ length slots.now.order.now }
    ensures { WalkedDown (region_of faces.now) slots.now (B.boxes branches.now slots.now root) list.old list.new result }
{
    let table = faces_table(faces);
    let live = all_faces();
    branch(
        branches,
        slots,
        &table,
        root,
        &live[..faces.offsets.len()],
        list,
        Tally::default(),
    )
}
