// The call that makes a point from a reading.
ghost use Rattle.std.specs.Prelude.{◌≡◌, [], ◌∷◌, length};
ghost use Rattle.terms.specs.AnswersForC.{making_of};
ghost use Rattle.terms.specs.PointCall.{MadeAs};

use crate::refuse::test_length;
use reading::convert;
use terms::refusal::Refusal;
use terms::{Reading, Triple};

// The point that a reading gives, if any, in the lent place, and whether one was made. The conversion does not see the place, so nothing is written before
// all is tested.
pub fn point_from(reading: Reading, place: &mut [i32]) -> Result<bool, Refusal>
    ensures { MadeAs reading place.old (making_of result) place.new }
{
    test_length(3, place)?;
    match convert(reading)? {
        Some(point) => {
            write_point(point, place);
            Ok(true)
        }
        None => Ok(false),
    }
}

// The point's three numbers in the three places.
fn write_point(point: Triple, place: &mut [i32])
    requires { length place.old ≡ 3 }
    ensures { place.new ≡ point.first ∷ point.second ∷ point.third ∷ [] }
{
    place.copy_from_slice(&[point.first, point.second, point.third]);
}
