// The live faces: those not yet known to be wholly above the present box, in rising order. They are lent from a branch to its children, so that none
// is copied.
ghost use Rattle.std.specs.Prelude.{ℕ, ◌≤◌, length};
ghost use Rattle.terms.specs.Points.{lone};
ghost use Rattle.theory.specs.Tested.{Coordinates};
ghost use Rattle.region.specs.Told.{told};
ghost use Rattle.region.specs.Live.{LiveFaces, AllLive, InsideByLive};

use crate::faces::{above, face_margin};
use crate::table::Table;

// All faces, which are live before any box is asked: the first h entries for h faces.
pub fn all_faces() -> [u8; 32]
    ensures { (h : ℕ) → h ≤ 32 → AllLive h result h }
{
    std::array::from_fn(|i| i as u8)
}

// Whether a point, which lies in a box for which these faces are live, is inside the region. A `for`, since what `all` is handed would owe the clauses of
// `face_margin` for any number.
pub fn inside_live(table: &Table, x: [i32; 4], live: &[u8]) -> bool
    requires coordinates { Coordinates table.now.k (lone x) }
    requires live_faces { LiveFaces (length table.now.offsets.now) live.now (length live.now) }
    ensures { InsideByLive (told table.now) live.now (length live.now) (lone x) result }
{
    for &f in live {
        let i = f as usize;
        if !above(face_margin(table, x, i), table.marks, i) {
            return false;
        }
    }
    true
}
