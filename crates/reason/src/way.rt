// The way down to a number: each branch's box is judged against the faces that are live for it, and the branch on the number's side is next.
ghost use Rattle.std.specs.Prelude.{◌≡◌};
ghost use Rattle.terms.specs.Points.{lone};
ghost use Rattle.terms.specs.Box.{box_of};
ghost use Rattle.terms.specs.Explain.{own_reason};
ghost use Rattle.theory.specs.Tested.{Coordinates};
ghost use Rattle.region.specs.Told.{told};
ghost use Rattle.reason.specs.Find.{Asks, Finds, SideAsks, SideOf};

use descent::points::{before, coordinate};
use descent::runs::{Run, left_run, right_run};
use descent::shelf::Shelf;
use region::faces::face_margin;
use region::judge::{Judgement, judge};
use region::lowest::lowest_below;
use region::table::Table;
use terms::Reason;
use terms::axis::next_axis;

// The reason that a point's own test gives in this slot.
fn own_reason(table: &Table, x: [i32; 4], slot: usize) -> Reason
    requires { Coordinates table.now.k (lone x) }
    ensures { result ≡ own_reason (told table.now) (lone x) slot }
{
    match lowest_below(table, x) {
        None => Reason::InsideByItself(slot),
        Some(face) => {
            let margin = face_margin(table, x, face);
            Reason::OutsideByItself(slot, face, margin)
        }
    }
}

// The branch of a branch's node q on the side of number p.
fn side_of(shelf: &Shelf, p: u32, run: Run, q: u32) -> Run
    requires { SideAsks shelf.now.k shelf.now.points.now p run q }
    ensures { SideOf shelf.now.k shelf.now.points.now p run.start run.length run.axis (box_of run.rows) q result }
{
    let split = coordinate(shelf.k, shelf.points, q as usize, run.axis);
    let next = next_axis(shelf.k, run.axis);
    if before(shelf.k, shelf.points, run.axis, p, q) {
        return left_run(run, split, next);
    }
    right_run(run, split, next)
}

// The part for a branch that holds number p, whose point is x. A settled branch is the reason; of an open one the node's own number is tested where it is p,
// and else the branch on p's side is next, with the faces that are left.
pub fn descend(shelf: &Shelf, table: &Table, p: u32, x: [i32; 4], run: Run, live: &[u8]) -> Reason
    requires { Asks shelf.now table.now p x run live.now }
    ensures { Finds shelf.now table.now p run result }
{
    let slot = run.start + run.length / 2;
    let mut next = [0; 32];
    match judge(table, run.rows, live, &mut next) {
        Judgement::Below(face) => {
            let margin = face_margin(table, x, face);
            Reason::OutsideWithBranch(slot, face, margin)
        }
        Judgement::Above => Reason::InsideWithBranch(slot),
        Judgement::Open(left) => {
            let q = shelf.order[slot];
            if p == q {
                return own_reason(table, x, slot);
            }
            let side = side_of(shelf, p, run, q);
            descend(shelf, table, p, x, side, &next[..left])
        }
    }
}
