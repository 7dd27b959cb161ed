// The walk of a shelf by its summary: the walk, with the tight box of every branch read from the summary in place of a box made on the way down.
#![tactic(auto)]

pub mod tight_boxes;

ghost use Rattle.std.specs.Prelude.{◌≡◌, ◌≤◌, length};
ghost use Rattle.terms.specs.Points.{coord};
ghost use Rattle.terms.specs.Summary as words;
ghost use Rattle.region.specs.Told.{region_of};
ghost use Rattle.tight_walk.specs.Shelf.{TightlyWalked};

use descent::runs::Run;
use descent::slots::Slots;
use region::tested::TestedFaces;
use terms::CornerRows;
use tight_boxes::{TightBoxes, box_in};
use walk::Tally;
use walk::down::walk_down;

// Lists the numbers of a shelf whose summary this is. The list has as many places as the shelf has slots. The root is judged like any branch.
pub fn tight_walk(slots: &Slots, summary: &[i32], faces: &TestedFaces, list: &mut [u32]) -> Tally
    requires order_len_bound { length slots.now.order.now ≤ 65535 }
    requires summary_value { summary.now ≡ words.summary slots.now.k (coord slots.now.k slots.now.points.now) slots.now.order.now }
    requires same_k { faces.now.k ≡ slots.now.k }
    requires list_len { length list.old ≡ length slots.now.order.now }
    ensures { TightlyWalked (region_of faces.now) (coord slots.now.k slots.now.points.now)
        slots.now.order.now list.new result.inside result.visits }
{
    let length = slots.order.len();
    // Any box holds the branches of an empty shelf.
    let none = CornerRows {
        low: [0; 4],
        high: [0; 4],
    };
    let root = Run {
        start: 0,
        length,
        axis: 0,
        rows: box_in(slots.k, summary, 0, length, none),
    };
    let tally = walk_down(&TightBoxes { summary }, slots, root, faces, list);
    prove!(tally.visits <= length);
    tally
}
