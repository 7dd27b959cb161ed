// The take call.
ghost use Rattle.std.specs.Prelude.{◌≡◌, length, IfOk};
ghost use Rattle.terms.specs.Live.{lowest_dead};
ghost use Rattle.terms.specs.RefusalNumbers.{code_of};
ghost use Rattle.terms.specs.AnswersForC.{taking_of};
ghost use Rattle.terms.specs.TakeCall.{take_refusals, TakenAs};
ghost use Rattle.hornherder.specs.First.{First};

use crate::live::lowest_dead;
use crate::refuse::{
    test_coordinates, test_length, test_live_bytes, test_live_coordinates, test_shape,
};
use crate::shaped::Shaped;
use terms::lent::Stock;
use terms::refusal::Refusal;

// Writes a point at the lowest dead number, sets its live byte, and answers the number. A refusal writes nothing. The stock's parts are lent one by one,
// since two of them are written.
pub fn take(
    k: usize,
    n: usize,
    points: &mut [i32],
    live: &mut [u8],
    point: &[i32],
) -> Result<u32, Refusal>
    ensures { TakenAs k n points.old live.old point.now (taking_of result) points.new live.new }
{
    let number = test_take(k, n, points, live, point)?;
    let start = number * k;
    write_coordinates(point, &mut points[start..start + k]);
    live[number] = 1;
    Ok(number as u32)
}

// The point's coordinates in as many places. A loop, since `copy_from_slice` would ask programs in C for one more name, `memmove`.
fn write_coordinates(point: &[i32], place: &mut [i32])
    requires { length place.old ≡ length point.now }
    ensures { place.new ≡ point.now }
{
    for (d, &coordinate) in point.iter().enumerate() {
        place[d] = coordinate;
    }
}

// The first of 1, 2, 3, 15, 5 and 16 that holds of the take call's arguments, or the lowest dead number. 3 and 5 are asked of the new point too.
// The stock comes in its parts, since the call is lent points and bytes to write, which no `Stock` holds.
fn test_take(
    k: usize,
    n: usize,
    points: &[i32],
    live: &[u8],
    point: &[i32],
) -> Result<usize, Refusal>
    ensures first { First (take_refusals k n points.now live.now point.now) (code_of result) }
    ensures lowest { IfOk result (λ number. number ≡ lowest_dead n live.now) }
{
    test_shape(k, n, points)?;
    test_length(k, point)?;
    let slots = test_live_bytes(n, live)?;
    let stock = Stock { k, n, points, live };
    test_live_coordinates(&Shaped { stock, slots })?;
    test_coordinates(point)?;
    lowest_dead(live).ok_or(Refusal::NoneDead)
}
