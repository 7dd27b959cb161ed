// The slots of a shelf.
ghost use Rattle.descent.specs.Standing.{Known};

// The numbers in the slots, and the points, k coordinates each: every slot holds the number of a point.
#[derive(Clone, Copy)]
pub struct Slots<'a> {
    pub k: usize,
    pub points: &'a [i32],
    pub order: &'a [u32],
    pub ghost known: { Known k points.now order.now },
}
