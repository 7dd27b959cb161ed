// The test of one point.
ghost use Rattle.std.specs.Prelude.{◌≡◌};
ghost use Rattle.terms.specs.LentValues.{lent_faces};
ghost use Rattle.terms.specs.RefusalNumbers.{code_of};
ghost use Rattle.terms.specs.AnswersForC.{placing_of};
ghost use Rattle.terms.specs.PlaceCall.{place_refusals, place_answer};
ghost use Rattle.hornherder.specs.First.{First};

use crate::faces::tested_faces;
use crate::refuse::{test_coordinates, test_dimension, test_faces, test_length};
use descent::points::point_at;
use region::measure::measure;
use terms::answers::Placed;
use terms::lent::Faces;
use terms::refusal::Refusal;

// Whether one point is inside a region, and where there are faces its least margin with the lowest-numbered face that has it.
pub fn place(k: usize, point: &[i32], faces: &Faces) -> Result<Placed, Refusal>
    ensures { placing_of result ≡ place_answer k point.now (lent_faces faces.now) }
{
    test_place(k, point, faces)?;
    let x = point_at(k, point, 0);
    Ok(measure(&tested_faces(k, faces), x))
}

// The first of 1, 3, 5 to 8 and 11 that holds of the one-point test's arguments.
fn test_place(k: usize, point: &[i32], faces: &Faces) -> Result<(), Refusal>
    ensures { First (place_refusals k point.now (lent_faces faces.now)) (code_of result) }
{
    test_dimension(k)?;
    test_length(k, point)?;
    test_coordinates(point)?;
    test_faces(k, faces)
}
