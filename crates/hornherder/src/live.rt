// Passes over the live bytes: whether each is 0 or 1 and how many are 1, the lowest dead number, and whether the live numbers' coordinates are in range.
ghost use Rattle.std.specs.Prelude.{◌≡◌, ◌||◌, not, ◌≤◌, ◌<◌, length, ◌==◌, position};
ghost use Rattle.terms.specs.Points.{coord};
ghost use Rattle.terms.specs.Live.{is_live};
ghost use Rattle.terms.specs.LivePoints.{point_in_range, members_in_range};
ghost use Rattle.hornherder.specs.Live.{CountedAs};

use crate::ranges::all_within;
use crate::shaped::Shaped;

// How many of the live bytes are 1, where each is 0 or 1. It does not stop early, so that the loop can take several bytes at once.
pub fn count_live(live: &[u8]) -> Option<usize>
    requires { length live.now ≤ 65535 }
    ensures { CountedAs live.now result }
{
    let mut all = true;
    let mut count: u32 = 0;
    for byte in live {
        all &= *byte <= 1;
        count += u32::from(*byte == 1);
    }
    all.then_some(count as usize)
}

// The lowest dead number, if any.
pub fn lowest_dead(live: &[u8]) -> Option<usize>
    ensures { result ≡ position (λ b. not (b == 1)) live.now }
{
    live.iter().position(|byte| *byte != 1)
}

// Whether number p is dead or its coordinates are in range.
fn dead_or_within(shaped: &Shaped, p: usize) -> bool
    requires { p < shaped.now.stock.n }
    ensures { result ≡ not (is_live shaped.now.stock.n shaped.now.stock.live.now p) || point_in_range shaped.now.stock.k (coord shaped.now.stock.k shaped.now.stock.points.now p) }
{
    let stock = shaped.stock;
    if stock.live[p] != 1 {
        return true;
    }
    let start = p * stock.k;
    let end = start + stock.k;
    all_within(&stock.points[start..end], -32768, 32767)
}

// Whether the coordinates of every live number are in range, number by number. An index, since a number has its byte in one slice and its coordinates in
// k places of another.
fn each_live_within(shaped: &Shaped) -> bool
    ensures { result ≡ members_in_range shaped.now.stock.k (coord shaped.now.stock.k shaped.now.stock.points.now) (is_live shaped.now.stock.n shaped.now.stock.live.now) shaped.now.stock.n }
{
    for p in 0..shaped.stock.n {
        if !dead_or_within(shaped, p) {
            return false;
        }
    }
    true
}

// The same. All lent coordinates are tested first, knowing nothing of the bytes, which are asked only where one is out of range: that is seldom, and
// the first pass takes several coordinates at once.
pub fn live_within(shaped: &Shaped) -> bool
    ensures { result ≡ members_in_range shaped.now.stock.k (coord shaped.now.stock.k shaped.now.stock.points.now) (is_live shaped.now.stock.n shaped.now.stock.live.now) shaped.now.stock.n }
{
    all_within(shaped.stock.points, -32768, 32767) || each_live_within(shaped)
}
