// A stock of the right shape.
ghost use Rattle.std.specs.Prelude.{◌≡◌};
ghost use Rattle.terms.specs.Live.{live_count};
ghost use Rattle.hornherder.specs.Live.{LivePoints};

use terms::lent::Stock;

// A stock whose 1, 2, 3 and 15 were tested, and how many slots its shelf has: as many as numbers are live.
#[derive(Clone, Copy)]
pub struct Shaped<'a> {
    pub stock: Stock<'a>,
    pub slots: usize,
    ghost lent: { LivePoints stock.k stock.n stock.points.now stock.live.now },
    ghost counted: { slots ≡ live_count stock.n stock.live.now },
}
