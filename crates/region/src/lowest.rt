// The lowest-numbered face that a point is below.
ghost use Rattle.std.specs.Prelude.{length};
ghost use Rattle.terms.specs.Points.{lone};
ghost use Rattle.theory.specs.Tested.{Coordinates};
ghost use Rattle.region.specs.Told.{told};
ghost use Rattle.region.specs.Lowest.{LowestFace};

use crate::faces::{above, face_margin};
use crate::table::Table;

// Tests the faces in rising order up to the first that the point is below, if there is one. An index, since a face is its row, its offset and its mark,
// in three places.
pub fn lowest_below(table: &Table, x: [i32; 4]) -> Option<usize>
    requires { Coordinates table.now.k (lone x) }
    ensures { LowestFace (told table.now) (lone x) result }
{
    for i in 0..table.offsets.len() {
        if !above(face_margin(table, x, i), table.marks, i) {
            return Some(i);
        }
    }
    None
}
