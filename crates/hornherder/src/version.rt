// Which version of the interface this is, so that a caller can tell two builds apart.
ghost use Rattle.std.specs.Prelude.{◌≡◌};

// The version of the interface: the number of the C header that belongs to it, one more with each change of the interface.
pub fn version() -> u32
    ensures { result ≡ 10 }
{
    10
}
