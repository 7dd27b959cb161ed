// The two parts of the screen: the part for a branch judges its box, the part for a node goes to its left branch, then to its own number, then to its
// right branch, and neither goes on once a number is found.
ghost use Rattle.std.specs.Prelude.{◌≡◌, true, ◌<◌};
ghost use Rattle.terms.specs.Box.{box_of};
ghost use Rattle.terms.specs.Region.{is_open};
ghost use Rattle.region.specs.Told.{told};
ghost use Rattle.screen_walk.specs.Parts.{BranchAsks, BranchDoes};

use crate::Seen;
use descent::points::{coordinate, point_at};
use descent::runs::{Run, left_run, right_run};
use descent::shelf::Shelf;
use region::judge::{Judgement, judge};
use region::live::inside_live;
use region::table::Table;
use terms::axis::next_axis;

// The part for a branch: its box is judged against the faces that are live for it. A settled branch has none inside, or its first slot's number is; an open
// one goes to the part for its node, with the faces that are left.
#[cycle(branch_node)]
pub fn branch(shelf: &Shelf, table: &Table, run: Run, live: &[u8], visits: usize) -> Seen
    requires { BranchAsks shelf.now table.now run live.now visits }
    ensures { BranchDoes shelf.now table.now run visits result }
{
    if run.length == 0 {
        return Seen {
            number: None,
            visits,
        };
    }
    let mut next = [0; 32];
    match judge(table, run.rows, live, &mut next) {
        Judgement::Below(_) => Seen {
            number: None,
            visits,
        },
        Judgement::Above => Seen {
            number: Some(shelf.order[run.start]),
            visits,
        },
        Judgement::Open(left) => node(shelf, table, run, &next[..left], visits),
    }
}

// The part for the node of an open branch. It stands after its left branch: only where that has none is it counted and its own number tested, and only
// where that is outside is the right branch asked. A node alone in its branch has no branches to ask.
#[cycle(branch_node)]
fn node(shelf: &Shelf, table: &Table, run: Run, live: &[u8], visits: usize) -> Seen
    requires branch_asks { BranchAsks shelf.now table.now run live.now visits }
    requires length_nonzero { 0 < run.length }
    requires rows_value { is_open (told table.now) (box_of run.rows) ≡ true }
    ensures { BranchDoes shelf.now table.now run visits result }
{
    let p = shelf.order[run.start + run.length / 2];
    let split = coordinate(shelf.k, shelf.points, p as usize, run.axis);
    let next = next_axis(shelf.k, run.axis);
    let mut seen = visits;
    if run.length != 1 {
        let left = left_run(run, split, next);
        let first = branch(shelf, table, left, live, seen);
        if first.number.is_some() {
            return first;
        }
        seen = first.visits;
    }
    seen += 1;
    let x = point_at(shelf.k, shelf.points, p as usize);
    if inside_live(table, x, live) {
        return Seen {
            number: Some(p),
            visits: seen,
        };
    }
    let right = right_run(run, split, next);
    branch(shelf, table, right, live, seen)
}
