// The arrange call.
ghost use Rattle.terms.specs.Lent.{stock, order_of};
ghost use Rattle.terms.specs.ArrangeCall.{ArrangedAs};

use terms::Arranging;
use terms::lent::Stock;

// The call of this name, for C.
#[unsafe(no_mangle)]
pub extern "C" fn hornherder_arrange(
    k: usize,
    n: usize,
    points: &[i32],
    live: &[u8],
    order: &mut [u32],
) -> Arranging
    ensures { ArrangedAs (stock k n points.now live.now) (order_of order.old) result (order_of order.new) }
{
    let stock = Stock { k, n, points, live };
    hornherder::arranging::arrange(&stock, order).into()
}
