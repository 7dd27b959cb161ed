// The take call.
ghost use Rattle.terms.specs.TakeCall.{TakenAs};

use terms::Taking;

// The call of this name, for C.
#[unsafe(no_mangle)]
pub extern "C" fn hornherder_take(
    k: usize,
    n: usize,
    points: &mut [i32],
    live: &mut [u8],
    point: &[i32],
) -> Taking
    ensures { TakenAs k n points.old live.old point.now result points.new live.new }
{
    hornherder::take::take(k, n, points, live, point).into()
}
