// The root box over the slots, for a shelf on which some numbers are dead: their coordinates may be any, and stand in no slot.
ghost use Rattle.std.specs.Prelude.{◌≤◌};
ghost use Rattle.terms.specs.Box.{box_of};
ghost use Rattle.descent.specs.Standing.{Known};
ghost use Rattle.descent.specs.SlotsBox.{SlotsBoxed};

use crate::joined::joined;
use crate::points::point_at;
use terms::CornerRows;

// The root box of the numbers in the slots, if there are any: each slot's point is taken in. It takes the parts that `root_box`
// has: a `Slots` made for one call says no more.
pub fn slots_box(k: usize, points: &[i32], order: &[u32]) -> CornerRows
    requires k_bound { k ≤ 4 }
    requires known { Known k points.now order.now }
    ensures { SlotsBoxed k points.now order.now (box_of result) }
{
    let mut rows = CornerRows {
        low: [32767; 4],
        high: [-32768; 4],
    };
    for &p in order {
        let x = point_at(k, points, p as usize);
        rows = joined(rows, CornerRows { low: x, high: x });
    }
    rows
}
