// A point measured against all faces: whether it is inside, and the least margin with the lowest-numbered face that has it.
ghost use Rattle.std.specs.Prelude.{length};
ghost use Rattle.terms.specs.Points.{lone};
ghost use Rattle.theory.specs.Tested.{Coordinates};
ghost use Rattle.region.specs.Told.{region_of};
ghost use Rattle.region.specs.Measured.{Leads, PointMeasured};

use crate::faces::{above, margin, row_of, sum};
use crate::tested::TestedFaces;
use terms::answers::{LeastMargin, Placed};

// Whether a face takes the place of the one with the least margin so far: the first does, a later one where its margin is strictly less.
fn leads(margin: i64, least: Option<LeastMargin>) -> bool
    ensures { Leads margin least result }
{
    match least {
        Some(least) => margin < least.margin,
        None => true,
    }
}

// Measures a point against all faces, in rising order. An index, since a face's normal, offset and mark stand in three slices.
pub fn measure(faces: &TestedFaces, x: [i32; 4]) -> Placed
    requires { Coordinates faces.now.k (lone x) }
    ensures { PointMeasured (region_of faces.now) (lone x) result }
{
    let mut inside = true;
    let mut least = None;
    for i in 0..faces.offsets.len() {
        let row = row_of(faces.k, faces.normals, i);
        let own = margin(sum(faces.k, x, row), faces.offsets, i);
        inside &= above(own, faces.marks, i);
        if leads(own, least) {
            least = Some(LeastMargin {
                face: i as u16,
                margin: own,
            });
        }
    }
    Placed { inside, least }
}
