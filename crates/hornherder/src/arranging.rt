// The arrange call.
ghost use Rattle.std.specs.Prelude.{◌≡◌, IfOk};
ghost use Rattle.terms.specs.Lent.{order_of};
ghost use Rattle.terms.specs.LentValues.{stock_of};
ghost use Rattle.terms.specs.RefusalNumbers.{code_of};
ghost use Rattle.terms.specs.AnswersForC.{arranging_of};
ghost use Rattle.terms.specs.ArrangeCall.{arrange_refusals, ArrangedAs};
ghost use Rattle.hornherder.specs.First.{First};

use crate::refuse::{test_live_coordinates, test_room, test_stock};
use crate::shaped::Shaped;
use arrange::build::build;
use arrange::check::check;
use terms::lent::Stock;
use terms::refusal::Refusal;

// Arranges the first v places of the order as the tree of the v live points, and says whether they were it already; then nothing is written. A refusal
// writes nothing.
pub fn arrange(stock: &Stock, order: &mut [u32]) -> Result<bool, Refusal>
    ensures { ArrangedAs (stock_of stock.now) (order_of order.old) (arranging_of result) (order_of order.new) }
{
    let shaped = test_arrange(stock, order)?;
    let run = &mut order[..shaped.slots];
    if check(stock, run) {
        return Ok(true);
    }
    build(stock, run);
    Ok(false)
}

// The first of 1, 2, 3, 15, 4 and 5 that holds of the arrange call's arguments, or the stock as one of the right shape.
pub(crate) fn test_arrange<'a>(stock: &Stock<'a>, order: &[u32]) -> Result<Shaped<'a>, Refusal>
    ensures first { First (arrange_refusals (stock_of stock.now) (order_of order.now)) (code_of result) }
    ensures same { IfOk result (λ shaped. shaped.stock ≡ stock.now) }
{
    let shaped = test_stock(stock)?;
    test_room(shaped.slots, order.len())?;
    test_live_coordinates(&shaped)?;
    Ok(shaped)
}
