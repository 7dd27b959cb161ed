// The two parts of a walk: the part for a branch judges its box, the part for a node visits it, and they call each other on ever shorter runs.
ghost use Rattle.std.specs.Prelude.{◌≡◌, true, ◌<◌, length};
ghost use Rattle.terms.specs.Box.{box_of};
ghost use Rattle.terms.specs.Region.{is_open};
ghost use Rattle.region.specs.Told.{told};
ghost use Rattle.region.specs.Live.{Lives};
ghost use Rattle.walk.specs.Tallied.{Tallied};
ghost use Rattle.walk.specs.Parts.{BranchDoes};

use crate::Tally;
use crate::branches::Branches;
use descent::points::point_at;
use descent::runs::Run;
use descent::slots::Slots;
use list_buffer::copiers::{copy_inside, copy_outside};
use list_buffer::placing::place;
use region::judge::{Judgement, judge};
use region::live::inside_live;
use region::table::Table;

// The part for a branch: its box is judged against the faces that are live for it. A settled run goes to a list as one part of the order, an
// open one to the part for its node, with the faces that are left.
#[cycle(branch_node)]
pub fn branch<B: Branches>(
    branches: &B,
    slots: &Slots,
    table: &Table,
    run: Run,
    live: &[u8],
    list: &mut [u32],
    tally: Tally,
) -> Tally
    requires goes { B.goes branches.now slots.now run }
    requires same_k { table.now.k ≡ slots.now.k }
    requires lives { Lives (told table.now) (box_of run.rows) live.now (length live.now) }
    requires tallied { Tallied slots.now.order.now list.old run.start run.length tally.inside tally.visits }
    ensures { BranchDoes (told table.now) slots.now run (B.boxes branches.now slots.now run) list.old list.new tally result }
{
    let a = run.start;
    let c = run.length;
    if c == 0 {
        return tally;
    }
    let mut next = [0; 32];
    let judged = judge(table, run.rows, live, &mut next);
    let e = a + c;
    match judged {
        Judgement::Below(_) => {
            copy_outside(&slots.order[a..e], list, a, tally.inside);
            tally
        }
        Judgement::Above => {
            copy_inside(&slots.order[a..e], list, tally.inside);
            Tally {
                inside: tally.inside + c,
                ..tally
            }
        }
        Judgement::Open(left) => node(branches, slots, table, run, &next[..left], list, tally),
    }
}

// The part for the node of an open branch: one visit, the left branch, its own number by its own test, the right branch. A node alone in its
// branch goes to its list at once.
#[cycle(branch_node)]
fn node<B: Branches>(
    branches: &B,
    slots: &Slots,
    table: &Table,
    run: Run,
    live: &[u8],
    list: &mut [u32],
    mut tally: Tally,
) -> Tally
    requires goes { B.goes branches.now slots.now run }
    requires same_k { table.now.k ≡ slots.now.k }
    requires lives { Lives (told table.now) (box_of run.rows) live.now (length live.now) }
    requires tallied { Tallied slots.now.order.now list.old run.start run.length tally.inside tally.visits }
    requires length_nonzero { 0 < run.length }
    requires open { is_open (told table.now) (box_of run.rows) ≡ true }
    ensures { BranchDoes (told table.now) slots.now run (B.boxes branches.now slots.now run) list.old list.new tally result }
{
    let middle = run.start + run.length / 2;
    let p = slots.order[middle];
    let x = point_at(slots.k, slots.points, p as usize);
    let inside = inside_live(table, x, live);
    tally.visits += 1;
    if run.length == 1 {
        tally.inside = place(p, inside, list, middle, tally.inside);
        return tally;
    }
    let left = branches.left(slots, run, p);
    let mut own = branch(branches, slots, table, left, live, list, tally);
    own.inside = place(p, inside, list, middle, own.inside);
    let right = branches.right(slots, run, p);
    branch(branches, slots, table, right, live, list, own)
}
