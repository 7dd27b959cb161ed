// The screen call.
ghost use Rattle.std.specs.Prelude.{◌≡◌, IfOk};
ghost use Rattle.terms.specs.Lent.{order_of};
ghost use Rattle.terms.specs.LentValues.{stock_of, lent_faces};
ghost use Rattle.terms.specs.Tree.{shelf_run};
ghost use Rattle.terms.specs.RefusalNumbers.{code_of};
ghost use Rattle.terms.specs.AnswersForC.{screening_of};
ghost use Rattle.terms.specs.ScreenCall.{screen_refusals, screen_answer};
ghost use Rattle.hornherder.specs.First.{First};

use crate::arranging::test_arrange;
use crate::faces::tested_faces;
use crate::refuse::{test_faces, test_tree};
use descent::root::shelf_of;
use terms::answers::Screened;
use terms::lent::{Faces, Stock};
use terms::refusal::Refusal;

// Whether any picture is inside a region: the inside number in the lowest slot, or none, and the visits up to there.
pub fn screen(stock: &Stock, order: &[u32], faces: &Faces) -> Result<Screened, Refusal>
    ensures { screening_of result ≡ screen_answer (stock_of stock.now) (order_of order.now) (lent_faces faces.now) }
{
    let run = test_screen(stock, order, faces)?;
    let shelf = shelf_of(stock.k, stock.n, stock.points, run);
    let seen = screen_walk::screen(&shelf, &tested_faces(stock.k, faces));
    Ok(Screened {
        number: seen.number,
        visits: seen.visits as u32,
    })
}

// The first of 1, 2, 3, 15, 4 to 8, 11 and 9 that holds of the screen call's arguments, or the slots of the shelf.
pub(crate) fn test_screen<'a>(
    stock: &Stock,
    order: &'a [u32],
    faces: &Faces,
) -> Result<&'a [u32], Refusal>
    ensures first { First (screen_refusals (stock_of stock.now) (order_of order.now) (lent_faces faces.now)) (code_of result) }
    ensures slots { IfOk result (λ run. run.now ≡ shelf_run (stock_of stock.now) (order_of order.now)) }
{
    let shaped = test_arrange(stock, order)?;
    test_faces(stock.k, faces)?;
    test_tree(&shaped, order)
}
