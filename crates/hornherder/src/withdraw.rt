// The withdraw call.
ghost use Rattle.terms.specs.RefusalNumbers.{code_of};
ghost use Rattle.terms.specs.WithdrawCall.{withdraw_refusals, WithdrawnAs};
ghost use Rattle.hornherder.specs.First.{First};

use crate::refuse::{test_live, test_live_bytes, test_size};
use terms::refusal::Refusal;

// Clears a live number's byte. A refusal writes nothing.
pub fn withdraw(n: usize, number: u32, live: &mut [u8]) -> Result<(), Refusal>
    ensures { WithdrawnAs n number live.old (code_of result) live.new }
{
    test_withdraw(n, number, live)?;
    live[number as usize] = 0;
    Ok(())
}

// The first of 2, 15 and 17 that holds of the withdraw call's arguments.
fn test_withdraw(n: usize, number: u32, live: &[u8]) -> Result<(), Refusal>
    ensures { First (withdraw_refusals n number live.now) (code_of result) }
{
    test_size(n)?;
    test_live_bytes(n, live)?;
    test_live(n, number, live)
}
