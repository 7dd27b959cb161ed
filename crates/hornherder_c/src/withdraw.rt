// The withdraw call.
ghost use Rattle.terms.specs.WithdrawCall.{WithdrawnAs};

use terms::for_c::code;

// The call of this name, for C.
#[unsafe(no_mangle)]
pub extern "C" fn hornherder_withdraw(n: usize, number: u32, live: &mut [u8]) -> u32
    ensures { WithdrawnAs n number live.old result live.new }
{
    code(hornherder::withdraw::withdraw(n, number, live))
}
