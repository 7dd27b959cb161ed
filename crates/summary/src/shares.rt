// How the slots of a branch share the summary out.
ghost use Rattle.std.specs.Prelude.{◌<◌, ◌≤◌, length};
ghost use Rattle.summary.specs.Shared.{SharedOut};

use descent::slots::Slots;

// The slots of the left and of the right branch, and where the numbers of the node's own box start and end: those of the left branch stand before them,
// those of the right branch behind.
// Two numbers, since a slice is parted at each of them.
#[derive(Clone, Copy)]
pub struct Shares<'a> {
    pub lefts: Slots<'a>,
    pub rights: Slots<'a>,
    pub from: usize,
    pub to: usize,
}

// The shares of these slots, of which there is one. The branches' slots are written out field by field, since a struct with a ghost field takes no `..`.
pub fn share_out<'a>(slots: &Slots<'a>) -> Shares<'a>
    requires some { 0 < length slots.now.order.now }
    requires many { length slots.now.order.now ≤ 65535 }
    requires few { slots.now.k ≤ 4 }
    ensures { SharedOut slots.now result }
{
    let middle = slots.order.len() / 2;
    let lefts = Slots {
        k: slots.k,
        points: slots.points,
        order: &slots.order[..middle],
    };
    let rights = Slots {
        k: slots.k,
        points: slots.points,
        order: &slots.order[middle + 1..],
    };
    let width = slots.k + slots.k;
    let from = middle * width;
    let to = from + width;
    Shares {
        lefts,
        rights,
        from,
        to,
    }
}
