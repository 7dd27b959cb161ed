// The checker: whether an order is the tree of its points, by one descent and no memory besides the stack.
// A branch is looked at within bounds, for each dimension the least key allowed and the first not allowed. Below the root a run of three slots at most is
// decided at once; most slots of a shelf stand in such runs.
ghost use Rattle.std.specs.Prelude.{◌≡◌, true, ◌||◌, not, ◌+◌, ◌<◌, length, replicate, slice_set, slice_index};
ghost use Rattle.terms.specs.Tests.{every};
ghost use Rattle.terms.specs.LentValues.{stock_of};
ghost use Rattle.terms.specs.Points.{coord, below};
ghost use Rattle.terms.specs.Live.{is_live, live_count};
ghost use Rattle.terms.specs.Tree.{is_tree};
ghost use Rattle.theory.specs.Tested.{TestedPoints};
ghost use Rattle.arrange.specs.Key.{key_of};
ghost use Rattle.arrange.specs.Allowed.{is_within};
ghost use Rattle.arrange.specs.Checked.{NoneDead};

use crate::below::is_below;
use crate::key::key;
use crate::live::all_live;
use terms::axis::next_axis;
use terms::lent::Stock;

// The bounds of a branch: for each dimension the least key allowed, and the first not allowed. A dimension below 4 is asked for where one is named: a type of
// such numbers would be made of a plain one at each call.
#[derive(Clone, Copy)]
struct Bounds {
    least: [u32; 4],
    end: [u32; 4],
}

impl Bounds {
    // The root's, which leave every key in.
    fn of_root() -> Bounds
        ensures least { result.least ≡ replicate 4 0 }
        ensures end { result.end ≡ replicate 4 4294967295 }
    {
        Bounds {
            least: [0; 4],
            end: [4294967295; 4],
        }
    }

    // Whether key x on dimension d lies within.
    fn hold(&self, d: usize, x: u32) -> bool
        requires { d < 4 }
        ensures { result ≡ is_within self.now.least self.now.end d x }
    {
        (self.least[d] <= x) & (x < self.end[d])
    }

    // Makes them those of the left branch of a node with key x on dimension s: it ends there.
    fn end_at(&mut self, s: usize, x: u32)
        requires { s < 4 }
        ensures least { self.new.least ≡ self.old.least }
        ensures end { self.new.end ≡ slice_set self.old.end s x }
    {
        self.end[s] = x;
    }

    // Makes them those of the right branch of that node: it starts right after.
    fn start_after(&mut self, s: usize, x: u32)
        requires dimension { s < 4 }
        requires later { x < 4294967295 }
        ensures least { self.new.least ≡ slice_set self.old.least s (x + 1) }
        ensures end { self.new.end ≡ self.old.end }
    {
        self.least[s] = x + 1;
    }
}

// A run of slots that is looked at as a branch, whose node splits on dimension s. Its slots are named by their numbers, and that there is such a slot is asked. The stock was tested and no slot holds a dead number, so that a
// number of the run that is below n has a key on each dimension.
#[derive(Clone, Copy)]
struct Branch<'a> {
    stock: &'a Stock<'a>,
    order: &'a [u32],
    s: usize,
    ghost tested: { TestedPoints (stock_of stock.now) },
    ghost none_dead: { every (λ p. not (below stock.now.n p) || is_live stock.now.n stock.now.live.now p) order.now ≡ true },
    ghost dimension: { s < stock.now.k },
}

impl<'a> Branch<'a> {
    ghost use Rattle.arrange.specs.Looked.{slot_allowed, slots_allowed, is_answer, LeftOf, RightOf};

    // Whether the numbers in three slots are below n, each with its key on every dimension within the bounds.
    // The turns are four at most, a constant (an index, since two rows of bounds and three keys go side by side), so that a compiler can lay them out one
    // after another, and where it is called: out of line the whole check takes a third more time.
    #[inline(always)]
    fn three_allowed(&self, bounds: &Bounds, i: usize, j: usize, h: usize) -> bool
        requires i_in_bounds { i < length self.now.order.now }
        requires j_in_bounds { j < length self.now.order.now }
        requires h_in_bounds { h < length self.now.order.now }
        ensures { result ≡ slots_allowed self.now bounds.now i j h }
    {
        let n = self.stock.n;
        let p = self.order[i];
        let q = self.order[j];
        let r = self.order[h];
        if !(is_below(n, p) & is_below(n, q) & is_below(n, r)) {
            return false;
        }
        for d in 0..4 {
            if self.stock.k <= d {
                return true;
            }
            let x = key(self.stock, d, p);
            let y = key(self.stock, d, q);
            let z = key(self.stock, d, r);
            if !(bounds.hold(d, x) & bounds.hold(d, y) & bounds.hold(d, z)) {
                return false;
            }
        }
        true
    }

    // The same of one slot.
    fn allowed(&self, bounds: &Bounds, i: usize) -> bool
        requires { i < length self.now.order.now }
        ensures { result ≡ slot_allowed self.now bounds.now i }
    {
        self.three_allowed(bounds, i, i, i)
    }

    // The key, on the dimension that the node splits on, of a slot's number that is below n.
    fn key_at(&self, i: usize) -> u32
        requires in_bounds { i < length self.now.order.now }
        requires below_n { below self.now.stock.now.n (slice_index self.now.order.now i) ≡ true }
        ensures value { result ≡ key_of self.now.stock.now.k self.now.stock.now.points.now self.now.s (slice_index self.now.order.now i) }
        ensures not_last { result < 4294967295 }
    {
        key(self.stock, self.s, self.order[i])
    }

    // Whether the run, of two slots at most, is such a branch, with every number allowed.
    fn few_slots(&self, bounds: &Bounds) -> bool
        requires { length self.now.order.now < 3 }
        ensures { result ≡ is_answer self.now bounds.now }
    {
        let c = self.order.len();
        if c == 0 {
            return true;
        }
        if c == 1 {
            return self.allowed(bounds, 0);
        }
        if !self.three_allowed(bounds, 1, 0, 0) {
            return false;
        }
        self.key_at(0) < self.key_at(1)
    }

    // The same of a run of three slots: its node and the two slots that are its branches.
    fn three_slots(&self, bounds: &Bounds) -> bool
        requires { length self.now.order.now ≡ 3 }
        ensures { result ≡ is_answer self.now bounds.now }
    {
        if !self.three_allowed(bounds, 1, 0, 2) {
            return false;
        }
        let x = self.key_at(1);
        (self.key_at(0) < x) & (x < self.key_at(2))
    }

    // The left branch of the node in slot h: the slots before it.
    fn left(&self, h: usize) -> Branch<'a>
        requires { h < length self.now.order.now }
        ensures { LeftOf self.now h result }
    {
        Branch {
            stock: self.stock,
            order: &self.order[..h],
            s: next_axis(self.stock.k, self.s),
        }
    }

    // The right branch of that node: the slots after it.
    fn right(&self, h: usize) -> Branch<'a>
        requires { h < length self.now.order.now }
        ensures { RightOf self.now h result }
    {
        let r = h + 1;
        Branch {
            stock: self.stock,
            order: &self.order[r..],
            s: next_axis(self.stock.k, self.s),
        }
    }

    // The same of any run. Three slots are looked for first: on a full shelf all the smallest runs have three.
    #[cycle(branch_node)]
    fn branch(&self, bounds: &Bounds) -> bool
        ensures { result ≡ is_answer self.now bounds.now }
    {
        let c = self.order.len();
        if c == 3 {
            return self.three_slots(bounds);
        }
        if c < 3 {
            return self.few_slots(bounds);
        }
        self.node(bounds)
    }

    // The same of a run that is not empty: its node is allowed, and its branches have its bounds with one replaced: on s the left branch
    // ends at the node's key, the right branch starts after it.
    #[cycle(branch_node)]
    fn node(&self, bounds: &Bounds) -> bool
        requires { 0 < length self.now.order.now }
        ensures { result ≡ is_answer self.now bounds.now }
    {
        let h = self.order.len() / 2;
        if !self.allowed(bounds, h) {
            return false;
        }
        let x = self.key_at(h);
        let mut before = *bounds;
        before.end_at(self.s, x);
        if !self.left(h).branch(&before) {
            return false;
        }
        let mut after = *bounds;
        after.start_after(self.s, x);
        self.right(h).branch(&after)
    }
}

// Whether no slot holds a dead number. Where each number has a slot none is dead, and nothing is read.
fn none_dead(live: &[u8], order: &[u32]) -> bool
    requires { length order.now ≡ live_count (length live.now) live.now }
    ensures { NoneDead (length live.now) live.now order.now result }
{
    if order.len() == live.len() {
        return true;
    }
    all_live(live, order)
}

// Whether the order, which has a slot for each live number of the stock, is their tree: the descent from the root, where every key is allowed. Where
// some number is dead the slots are gone through first, so that no key of a dead number is formed.
pub fn check(stock: &Stock, order: &[u32]) -> bool
    requires tested_points { TestedPoints (stock_of stock.now) }
    requires order_len { length order.now ≡ live_count stock.now.n stock.now.live.now }
    ensures { result
        ≡ is_tree
        stock.now.k
        (coord stock.now.k stock.now.points.now)
        (is_live stock.now.n stock.now.live.now)
        stock.now.n
        order.now }
{
    if !none_dead(stock.live, order) {
        return false;
    }
    if order.len() == 0 {
        return true;
    }
    let root = Branch { stock, order, s: 0 };
    root.node(&Bounds::of_root())
}
