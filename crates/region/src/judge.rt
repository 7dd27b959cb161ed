// Judging a box against the faces that are live for it.
ghost use Rattle.std.specs.Prelude.{length};
ghost use Rattle.terms.specs.Box.{box_of};
ghost use Rattle.region.specs.Ranges.{BoxRanges};
ghost use Rattle.region.specs.Told.{told};
ghost use Rattle.region.specs.Live.{Lives};
ghost use Rattle.region.specs.Judged.{Judged};

use crate::boxes::{wholly_above, wholly_below};
use crate::table::Table;
use terms::CornerRows;

// What a box is found to be: wholly below a face, and this is the lowest; wholly above all; or open, and so many faces are left.
#[derive(Clone, Copy)]
pub enum Judgement {
    Below(usize),
    Above,
    Open(usize),
}

// Judges a box against its live faces, in rising order, up to the first that it is wholly below. Those that are left are written to `next`, and
// `left` counts them: without a heap they need an array with room for all.
pub fn judge(table: &Table, rows: CornerRows, live: &[u8], next: &mut [u8; 32]) -> Judgement
    requires box_ranges { BoxRanges table.now.k (box_of rows) }
    requires lives { Lives (told table.now) (box_of rows) live.now (length live.now) }
    ensures { Judged (told table.now) (box_of rows) live.now (length live.now) result next.new }
{
    let mut left: usize = 0;
    for &f in live {
        let i = f as usize;
        if !wholly_above(table, rows, i) {
            if wholly_below(table, rows, i) {
                return Judgement::Below(i);
            }
            next[left] = f;
            left += 1;
        }
    }
    if left == 0 {
        return Judgement::Above;
    }
    Judgement::Open(left)
}
