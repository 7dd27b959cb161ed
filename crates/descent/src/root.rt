// The root box of a shelf, and the shelf as one value with it.
ghost use Rattle.terms.specs.Box.{box_of};
ghost use Rattle.descent.specs.SlotsBox.{SlotsBoxed};
ghost use Rattle.descent.specs.Root.{Shelved};
ghost use Rattle.descent.specs.Shelf.{ShelfOf};

use crate::numbers_box::numbers_box;
use crate::shelf::Shelf;
use crate::slots_box::slots_box;
use terms::CornerRows;

// The root box of the slots, if there are any. Where each of the n numbers has a slot it is taken over the points as they are lent, else slot by slot.
pub fn root_box(k: usize, n: usize, points: &[i32], order: &[u32]) -> CornerRows
    requires { Shelved k n points.now order.now }
    ensures { SlotsBoxed k points.now order.now (box_of result) }
{
    if order.len() == n {
        return numbers_box(k, n, points);
    }
    slots_box(k, points, order)
}

// The shelf that the slots of n numbers are, with its root box. It takes k, n and the points alone, as `root_box` does, since no live byte is read.
pub fn shelf_of<'a>(k: usize, n: usize, points: &'a [i32], order: &'a [u32]) -> Shelf<'a>
    requires { Shelved k n points.now order.now }
    ensures { ShelfOf k points.now order.now result }
{
    let rows = root_box(k, n, points, order);
    Shelf {
        k,
        points,
        order,
        rows,
    }
}
