// The builder: the lent order filled with the shelf's numbers and arranged in place as the tree of their points.
ghost use Rattle.std.specs.Prelude.{◌≡◌, true, ◌<◌, ◌≤◌, length};
ghost use Rattle.terms.specs.LentValues.{stock_of};
ghost use Rattle.terms.specs.Points.{coord, below};
ghost use Rattle.terms.specs.Live.{is_live, live_count};
ghost use Rattle.terms.specs.Tree.{members, is_tree};
ghost use Rattle.theory.specs.Tested.{TestedPoints};
ghost use Rattle.arrange.specs.Placed.{Placed};
ghost use Rattle.arrange.specs.Arranged.{Arrangeable, Arranged};

use crate::choose::choose;
use crate::key::{write_keys, write_numbers};
use crate::live::fill_live;
use terms::axis::next_axis;
use terms::lent::Stock;

// Puts the number whose place is m of the run there, by the keys on dimension s.
fn place_node(stock: &Stock, s: usize, run: &mut [u32], m: usize)
    requires arrangeable { Arrangeable stock.now.k stock.now.points.now s run.old }
    requires m_in_bounds { m < length run.old }
    ensures { Placed (coord stock.now.k stock.now.points.now) s run.old run.new m }
{
    write_keys(stock, s, run);
    choose(run, m);
    write_numbers(run);
}

// Arranges the run as the branch of a node that splits on dimension s: the node is put in the middle, and then each half is
// arranged as a part of the run. Halves of one slot or none are arranged already.
fn arrange(stock: &Stock, s: usize, run: &mut [u32])
    requires { Arrangeable stock.now.k stock.now.points.now s run.old }
    ensures { Arranged stock.now.k (coord stock.now.k stock.now.points.now) s run.old run.new }
{
    let c = run.len();
    if c < 2 {
        return;
    }
    let m = c / 2;
    let r = m + 1;
    place_node(stock, s, run, m);
    if c < 4 {
        return;
    }
    let next = next_axis(stock.k, s);
    arrange(stock, next, &mut run[..m]);
    arrange(stock, next, &mut run[r..]);
}

// Fills the order with the numbers from 0 on, one for each of its slots.
fn fill(order: &mut [u32])
    requires { length order.old ≤ 65535 }
    ensures { order.new ≡ members (below (length order.old)) (length order.old) }
{
    for (p, slot) in order.iter_mut().enumerate() {
        *slot = p as u32;
    }
}

// Fills the order with the numbers that belong, rising: all of them where it has a slot for each, else by their live bytes.
fn fill_order(live: &[u8], order: &mut [u32])
    requires live_len_bound { length live.now ≤ 65535 }
    requires order_len { length order.old ≡ live_count (length live.now) live.now }
    ensures { order.new ≡ members (is_live (length live.now) live.now) (length live.now) }
{
    if order.len() == live.len() {
        fill(order);
        return;
    }
    fill_live(live, order);
}

// Builds the tree of the live numbers of the stock in the lent order, which has a slot for each.
pub fn build(stock: &Stock, order: &mut [u32])
    requires tested_points { TestedPoints (stock_of stock.now) }
    requires order_len { length order.old ≡ live_count stock.now.n stock.now.live.now }
    ensures { is_tree
        stock.now.k
        (coord stock.now.k stock.now.points.now)
        (is_live stock.now.n stock.now.live.now)
        stock.now.n
        order.new
        ≡ true }
{
    fill_order(stock.live, order);
    arrange(stock, 0, order);
}
