// The shelf that an engine goes down, as one value.
ghost use Rattle.std.specs.Prelude.{◌≡◌, true, length, ◌<◌};
ghost use Rattle.terms.specs.Points.{coord};
ghost use Rattle.terms.specs.Tree.{tree_run};
ghost use Rattle.terms.specs.Box.{box_of, root_box};
ghost use Rattle.theory.specs.Boxes.{Alike};
ghost use Rattle.descent.specs.Standing.{Known};

use terms::CornerRows;

// The lent points, k coordinates each, the number in each slot, and the root box where there is a slot. Every number is that of a point, and the order is
// the tree of these.
#[derive(Clone, Copy)]
pub struct Shelf<'a> {
    pub k: usize,
    pub points: &'a [i32],
    pub order: &'a [u32],
    pub rows: CornerRows,
    pub ghost some: { 0 < k },
    pub ghost known: { Known k points.now order.now },
    pub ghost tree: { tree_run (length order.now) k (coord k points.now) 0 order.now ≡ true },
    pub ghost alike: { 0 < length order.now → Alike k (box_of rows) (root_box (coord k points.now) order.now) },
}
