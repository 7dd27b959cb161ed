// The tight box of a branch from what stands beside it: its node's point, and the boxes that the summary has for its two branches.
ghost use Rattle.terms.specs.Points.{coord};
ghost use Rattle.terms.specs.Box.{box_of};
ghost use Rattle.terms.specs.TightBox.{tight_box};
ghost use Rattle.theory.specs.Boxes.{Alike};
ghost use Rattle.summary.specs.BranchBox.{BranchesStored};

use crate::boxes::read_box;
use descent::joined::joined;
use descent::points::point_at;
use descent::slots::Slots;
use terms::CornerRows;

// The tight box of the branch of these slots, of which there is one, where the summary has the boxes of its two branches.
pub fn branch_box(slots: &Slots, summary: &[i32]) -> CornerRows
    requires { BranchesStored slots.now.k slots.now.points.now slots.now.order.now summary.now }
    ensures { Alike slots.now.k (box_of result) (tight_box (coord slots.now.k slots.now.points.now) slots.now.order.now) }
{
    let k = slots.k;
    let c = slots.order.len();
    let m = c / 2;
    let p = slots.order[m];
    let x = point_at(k, slots.points, p as usize);
    let own = CornerRows { low: x, high: x };
    if c == 1 {
        return own;
    }
    let left = read_box(k, summary, m / 2);
    let half = joined(own, left);
    if c == 2 {
        return half;
    }
    let right = read_box(k, summary, m + 1 + (c - m - 1) / 2);
    joined(half, right)
}
