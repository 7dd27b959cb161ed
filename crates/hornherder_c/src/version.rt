// Which version of the interface this is, so that a caller can tell two builds apart.
ghost use Rattle.std.specs.Prelude.{◌≡◌};

// The call of this name, for C.
#[unsafe(no_mangle)]
pub extern "C" fn hornherder_version() -> u32
    ensures { result ≡ 10 }
{
    hornherder::version::version()
}
