// Which numbers are below n.
ghost use Rattle.std.specs.Prelude.{◌≡◌};
ghost use Rattle.terms.specs.Points.{below};

// Whether number p is one of m numbers, live or dead.
pub fn is_below(m: usize, p: u32) -> bool
    ensures { result ≡ below m p }
{
    (p as usize) < m
}
