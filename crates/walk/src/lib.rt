// The walk of a shelf against a region: the stock inside from the front of the list, the stock outside from its back, and the visits.
#![tactic(auto)]

pub mod branch_boxes;
pub mod branches;
pub mod down;
mod parts;

ghost use Rattle.std.specs.Prelude.{◌≡◌, length};
ghost use Rattle.terms.specs.Points.{coord};
ghost use Rattle.region.specs.Told.{region_of};
ghost use Rattle.walk.specs.Shelf.{ShelfWalked};

use branch_boxes::BranchBoxes;
use descent::runs::root_run;
use descent::shelf::Shelf;
use descent::slots::Slots;
use down::walk_down;
use region::tested::TestedFaces;

// How many numbers the list holds in front, and how many nodes were visited. The other numbers of the slots walked so far stand behind.
#[derive(Clone, Copy, Default)]
pub struct Tally {
    pub inside: usize,
    pub visits: usize,
}

// Lists the numbers of a shelf. The list has as many places as the shelf has slots. The root is judged like any branch.
pub fn walk(shelf: &Shelf, faces: &TestedFaces, list: &mut [u32]) -> Tally
    requires same_k { faces.now.k ≡ shelf.now.k }
    requires list_len { length list.old ≡ length shelf.now.order.now }
    ensures { ShelfWalked (region_of faces.now) (coord shelf.now.k shelf.now.points.now)
        shelf.now.order.now list.new result.inside result.visits }
{
    let slots = Slots {
        k: shelf.k,
        points: shelf.points,
        order: shelf.order,
    };
    walk_down(&BranchBoxes, &slots, root_run(shelf), faces, list)
}
