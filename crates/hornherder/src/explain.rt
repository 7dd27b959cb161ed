// The explain call.
ghost use Rattle.std.specs.Prelude.{◌≡◌, IfOk};
ghost use Rattle.terms.specs.Lent.{order_of};
ghost use Rattle.terms.specs.LentValues.{stock_of, lent_faces};
ghost use Rattle.terms.specs.Tree.{shelf_run};
ghost use Rattle.terms.specs.RefusalNumbers.{code_of};
ghost use Rattle.terms.specs.AnswersForC.{explaining_of};
ghost use Rattle.terms.specs.ExplainCall.{explain_refusals, explain_answer};
ghost use Rattle.theory.specs.Reasons.{Named};
ghost use Rattle.hornherder.specs.First.{First};

use crate::faces::tested_faces;
use crate::refuse::test_live;
use crate::screen::test_screen;
use descent::root::shelf_of;
use reason::reason;
use terms::Reason;
use terms::lent::{Faces, Stock};
use terms::refusal::Refusal;

// Why a picture is inside or outside a region: one of four reasons with a slot, and for outside a face and the picture's margin to it. The slot is below
// 65,536 and the face below 256.
pub fn explain(stock: &Stock, order: &[u32], faces: &Faces, number: u32) -> Result<Reason, Refusal>
    ensures answered { explaining_of result ≡ explain_answer (stock_of stock.now) (order_of order.now) (lent_faces faces.now) number }
    ensures small { IfOk result (λ why. Named 65536 256 why) }
{
    let run = test_explain(stock, order, faces, number)?;
    let shelf = shelf_of(stock.k, stock.n, stock.points, run);
    Ok(reason(&shelf, &tested_faces(stock.k, faces), number))
}

// The first of 1, 2, 3, 15, 4 to 8, 11, 9 and 17 that holds of the explain call's arguments, or the slots of the shelf.
fn test_explain<'a>(
    stock: &Stock,
    order: &'a [u32],
    faces: &Faces,
    number: u32,
) -> Result<&'a [u32], Refusal>
    ensures first { First (explain_refusals (stock_of stock.now) (order_of order.now) (lent_faces faces.now) number) (code_of result) }
    ensures slots { IfOk result (λ run. run.now ≡ shelf_run (stock_of stock.now) (order_of order.now)) }
{
    let run = test_screen(stock, order, faces)?;
    test_live(stock.n, number, stock.live)?;
    Ok(run)
}
