// The summary of a shelf: filled in place from the leaves up, and told apart from any other list. Both put a branch's tight box together from its node's
// point and the boxes that the summary has for its two branches, so that nothing else is remembered.
#![tactic(auto)]

pub mod boxes;
pub mod branch_box;
mod shares;

ghost use Rattle.std.specs.Prelude.{◌≡◌, length};
ghost use Rattle.terms.specs.Points.{coord};
ghost use Rattle.terms.specs.Summary as words;
ghost use Rattle.summary.specs.Shares.{Summarisable};

use boxes::{same_box, write_box};
use branch_box::branch_box;
use descent::slots::Slots;
use shares::{Shares, share_out};

// Fills the summary of these slots: the left branch's part, the right branch's, then the box between them.
pub fn fill(slots: &Slots, summary: &mut [i32])
    requires { Summarisable slots.now.k slots.now.points.now slots.now.order.now (length summary.old) }
    ensures { summary.new ≡ words.summary slots.now.k (coord slots.now.k slots.now.points.now) slots.now.order.now }
{
    if slots.order.is_empty() {
        return;
    }
    let Shares {
        lefts,
        rights,
        from,
        to,
    } = share_out(slots);
    fill(&lefts, &mut summary[..from]);
    fill(&rights, &mut summary[to..]);
    let own = branch_box(slots, summary);
    write_box(slots.k, own, &mut summary[from..to]);
}

// Whether the lent list is the summary of these slots: so for both branches, and then for the box between them. Nothing is written.
pub fn is_summary(slots: &Slots, summary: &[i32]) -> bool
    requires { Summarisable slots.now.k slots.now.points.now slots.now.order.now (length summary.now) }
    ensures { result ≡ words.is_summary slots.now.k (coord slots.now.k slots.now.points.now) slots.now.order.now summary.now }
{
    if slots.order.is_empty() {
        return true;
    }
    let Shares {
        lefts,
        rights,
        from,
        to,
    } = share_out(slots);
    if !is_summary(&lefts, &summary[..from]) {
        return false;
    }
    if !is_summary(&rights, &summary[to..]) {
        return false;
    }
    let own = branch_box(slots, summary);
    same_box(slots.k, own, &summary[from..to])
}
