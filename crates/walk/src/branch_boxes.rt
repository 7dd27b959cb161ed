// The branches of a shelf that is a tree, each judged by its branch box, which is made on the way down.
ghost use Rattle.walk.specs.BranchBoxes.{GoesByBranchBox, own_box, branch_boxes, LeftOf, RightOf, branch_box_laws};

use crate::branches::Branches;
use descent::points::coordinate;
use descent::runs::{Run, left_run, right_run};
use descent::slots::Slots;
use terms::axis::next_axis;

// The kind of branches whose boxes are the branch boxes.
#[derive(Clone, Copy)]
pub struct BranchBoxes;

impl Branches for BranchBoxes {
    ghost goes = { λ _. GoesByBranchBox };

    ghost own = { λ _. own_box };

    ghost boxes = { λ _. branch_boxes };

    ghost is_left = { λ _. LeftOf };

    ghost is_right = { λ _. RightOf };

    ghost laws = { branch_box_laws };

    fn left(&self, slots: &Slots, run: Run, p: u32) -> Run {
        let split = coordinate(slots.k, slots.points, p as usize, run.axis);
        left_run(run, split, next_axis(slots.k, run.axis))
    }

    fn right(&self, slots: &Slots, run: Run, p: u32) -> Run {
        let split = coordinate(slots.k, slots.points, p as usize, run.axis);
        right_run(run, split, next_axis(slots.k, run.axis))
    }
}
