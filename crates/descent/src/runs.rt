// A branch as a value: the root of a shelf, and the two branches of a branch's node.
ghost use Rattle.std.specs.Prelude.{◌+◌, ◌-◌, ◌/◌, ◌^◌, ◌<◌};
ghost use Rattle.terms.specs.Box.{box_of, left_box, right_box};
ghost use Rattle.descent.specs.Runs.{Child};
ghost use Rattle.descent.specs.Shelf.{RootRun};

use crate::shelf::Shelf;
use region::boxes::{left_box, right_box};
use terms::CornerRows;

// A branch: where its run of slots starts and how long it is, the dimension on which its node splits, and its box.
#[derive(Clone, Copy)]
pub struct Run {
    pub start: usize,
    pub length: usize,
    pub axis: usize,
    pub rows: CornerRows,
}

// The root of a shelf: all its slots, in its root box.
pub fn root_run(shelf: &Shelf) -> Run
    ensures { RootRun shelf.now result }
{
    Run {
        start: 0,
        length: shelf.order.len(),
        axis: 0,
        rows: shelf.rows,
    }
}

// The left branch of a branch whose node has the coordinate x on the dimension on which it splits. The left branch's own node splits on the next, which
// is handed over, since it is that of the right branch too.
pub fn left_run(run: Run, x: i32, next: usize) -> Run
    requires { run.axis < 4 }
    ensures { Child run.start (run.length / 2) next (left_box (box_of run.rows) run.axis x)
        result.start result.length result.axis (box_of result.rows) }
{
    Run {
        length: run.length / 2,
        axis: next,
        rows: left_box(run.rows, run.axis, x),
        ..run
    }
}

// The right branch.
pub fn right_run(run: Run, x: i32, next: usize) -> Run
    requires axis_bound { run.axis < 4 }
    requires length_nonzero { 0 < run.length }
    requires length_bound { run.start + run.length < 2 ^ 64 }
    ensures { Child (run.start + run.length / 2 + 1) (run.length - run.length / 2 - 1) next (right_box (box_of run.rows) run.axis x)
        result.start result.length result.axis (box_of result.rows) }
{
    let half = run.length / 2;
    Run {
        start: run.start + half + 1,
        length: run.length - half - 1,
        axis: next,
        rows: right_box(run.rows, run.axis, x),
    }
}
