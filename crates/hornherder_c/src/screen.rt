// The screen call.
ghost use Rattle.std.specs.Prelude.{◌≡◌};
ghost use Rattle.terms.specs.Lent.{stock, order_of, faces};
ghost use Rattle.terms.specs.ScreenCall.{screen_answer};

use terms::Screening;
use terms::lent::{Faces, Stock};

// The call of this name, for C.
#[unsafe(no_mangle)]
pub extern "C" fn hornherder_screen(
    k: usize,
    n: usize,
    h: usize,
    points: &[i32],
    live: &[u8],
    order: &[u32],
    normals: &[i32],
    offsets: &[i64],
    marks: &[u8],
) -> Screening
    ensures { result ≡ screen_answer (stock k n points.now live.now) (order_of order.now) (faces h normals.now offsets.now marks.now) }
{
    let stock = Stock { k, n, points, live };
    let faces = Faces {
        h,
        normals,
        offsets,
        marks,
    };
    hornherder::screen::screen(&stock, order, &faces).into()
}
