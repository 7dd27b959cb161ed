// The dimensions on which nodes split, from one depth to the next.
ghost use Rattle.std.specs.Prelude.{◌≡◌, ◌+◌, ◌<◌};
ghost use Rattle.terms.specs.Run.{axis};

// The dimension after s: what the branches of a node that splits on s split on.
pub fn next_axis(k: usize, s: usize) -> usize
    requires { s < k }
    ensures { result ≡ axis k (s + 1) }
{
    if s + 1 < k { s + 1 } else { 0 }
}
