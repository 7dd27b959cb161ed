// Whether numbers lie in a range: coordinates and components, offsets in a wider type, marks and face counts in others.
ghost use Rattle.std.specs.Prelude.{◌≡◌};
ghost use Rattle.terms.specs.Tests.{every};
ghost use Rattle.hornherder.specs.Between.{between};

// Whether every number lies from least to greatest. It does not stop early, so that the loop can take several numbers at once.
pub fn all_within<T: Ord + Copy>(numbers: &[T], least: T, greatest: T) -> bool
    ensures { result ≡ every (between T.cmp least greatest) numbers.now }
{
    let mut all = true;
    for x in numbers {
        all &= (least <= *x) & (*x <= greatest);
    }
    all
}
