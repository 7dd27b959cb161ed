// The key of a number on a dimension: an unsigned number whose order is the order of the shelf; and keys written in the places of a run.
ghost use Rattle.std.specs.Prelude.{◌≡◌, map};
ghost use Rattle.arrange.specs.Key.{Keyed, key_of};
ghost use Rattle.arrange.specs.Placed.{KeyedRun, number_of};

use terms::lent::Stock;

// The key of number p on dimension s: coordinate s, lifted above 0, and then the number itself, so that no two numbers have one key.
pub fn key(stock: &Stock, s: usize, p: u32) -> u32
    requires { Keyed stock.now.k stock.now.points.now s p }
    ensures { result ≡ key_of stock.now.k stock.now.points.now s p }
{
    let i = (p as usize) * stock.k + s;
    let lifted = (stock.points[i] + 32768) as u32;
    lifted * 65536 + p
}

// Writes each number's key on dimension s in its place.
pub fn write_keys(stock: &Stock, s: usize, run: &mut [u32])
    requires { KeyedRun stock.now.k stock.now.points.now s run.old }
    ensures { run.new ≡ map (key_of stock.now.k stock.now.points.now s) run.old }
{
    // By a copy of the stock a compiler sees that no key written to the run changes it.
    let stock = *stock;
    for slot in run.iter_mut() {
        *slot = key(&stock, s, *slot);
    }
}

// Writes each key's number in its place.
pub fn write_numbers(run: &mut [u32])
    ensures { run.new ≡ map number_of run.old }
{
    for slot in run.iter_mut() {
        *slot %= 65536;
    }
}
