// The branches of a shelf, each judged by its tight box, which is read from the summary.
ghost use Rattle.std.specs.Prelude.{◌≡◌, ◌+◌, ◌/◌, ◌<◌};
ghost use Rattle.terms.specs.Box.{box_of};
ghost use Rattle.summary.specs.Stored.{HasBox};
ghost use Rattle.tight_walk.specs.TightBoxes.{BoxRead};
ghost use Rattle.tight_walk.specs.Laws.{GoesByTightBox, own_box, tight_slots, LeftOf, RightOf, tight_box_laws};

use descent::runs::Run;
use descent::slots::Slots;
use summary::boxes::read_box;
use terms::CornerRows;
use walk::branches::Branches;

// The kind of branches whose boxes are the tight boxes of a summary: two points to a slot, the least and the greatest coordinates of its branch.
#[derive(Clone, Copy)]
pub struct TightBoxes<'a> {
    pub summary: &'a [i32],
}

// The box of the branch of so many slots from a slot on, read from the slot of its node; of an empty one, which is never asked, the box in which it lies.
// Start and length come one by one, since a `Run` holds the box that is read here.
pub fn box_in(
    k: usize,
    summary: &[i32],
    start: usize,
    length: usize,
    around: CornerRows,
) -> CornerRows
    requires { 0 < length → HasBox k summary.now (start + length / 2) }
    ensures { BoxRead k summary.now start length (box_of around) (box_of result) }
{
    if length == 0 {
        return around;
    }
    read_box(k, summary, start + length / 2)
}

impl<'a> Branches for TightBoxes<'a> {
    ghost goes = { λ t. GoesByTightBox t.summary.now };

    ghost own = { λ _. own_box };

    ghost boxes = { λ _. tight_slots };

    ghost is_left = { λ t. LeftOf t.summary.now };

    ghost is_right = { λ t. RightOf t.summary.now };

    ghost laws = { tight_box_laws };

    fn left(&self, slots: &Slots, run: Run, _p: u32) -> Run {
        let half = run.length / 2;
        Run {
            length: half,
            rows: box_in(slots.k, self.summary, run.start, half, run.rows),
            ..run
        }
    }

    fn right(&self, slots: &Slots, run: Run, _p: u32) -> Run {
        let half = run.length / 2;
        let start = run.start + half + 1;
        let length = run.length - half - 1;
        Run {
            start,
            length,
            rows: box_in(slots.k, self.summary, start, length, run.rows),
            ..run
        }
    }
}
