// The list call.
ghost use Rattle.std.specs.Prelude.{◌≡◌, IfOk};
ghost use Rattle.terms.specs.Lent.{order_of};
ghost use Rattle.terms.specs.LentValues.{stock_of, lent_faces};
ghost use Rattle.terms.specs.Tree.{shelf_run};
ghost use Rattle.terms.specs.RefusalNumbers.{code_of};
ghost use Rattle.terms.specs.AnswersForC.{listing_of};
ghost use Rattle.terms.specs.ListCall.{list_refusals, ListedAs};
ghost use Rattle.hornherder.specs.First.{First};

use crate::faces::tested_faces;
use crate::refuse::{test_faces, test_live_coordinates, test_room, test_stock, test_tree};
use descent::root::shelf_of;
use terms::answers::Listed;
use terms::lent::{Faces, Stock};
use terms::refusal::Refusal;
use walk::walk;

// The two lists of a shelf against a region: inside from the front of the list, outside backwards from place v - 1, with their lengths and the
// visits. A refusal writes nothing.
pub fn list(
    stock: &Stock,
    order: &[u32],
    faces: &Faces,
    list: &mut [u32],
) -> Result<Listed, Refusal>
    ensures { ListedAs (stock_of stock.now) (order_of order.now) (lent_faces faces.now) list.old (listing_of result) list.new }
{
    let run = test_list(stock, order, faces, list)?;
    let slots = run.len();
    let shelf = shelf_of(stock.k, stock.n, stock.points, run);
    let faces = tested_faces(stock.k, faces);
    let tally = walk(&shelf, &faces, &mut list[..slots]);
    let listed = Listed {
        inside: tally.inside as u32,
        outside: (slots - tally.inside) as u32,
        visits: tally.visits as u32,
    };
    Ok(listed)
}

// The first of 1, 2, 3, 15, 4 to 8, 11 and 9 that holds of the list call's arguments, or the slots of the shelf.
fn test_list<'a>(
    stock: &Stock,
    order: &'a [u32],
    faces: &Faces,
    list: &[u32],
) -> Result<&'a [u32], Refusal>
    ensures first { First (list_refusals (stock_of stock.now) (order_of order.now) (lent_faces faces.now) list.now) (code_of result) }
    ensures slots { IfOk result (λ run. run.now ≡ shelf_run (stock_of stock.now) (order_of order.now)) }
{
    let shaped = test_stock(stock)?;
    test_room(shaped.slots, order.len())?;
    test_room(shaped.slots, list.len())?;
    test_live_coordinates(&shaped)?;
    test_faces(stock.k, faces)?;
    test_tree(&shaped, order)
}
