// The answers as C has them, a file for each: the number 0 and what was found where a call is done, else the refusal's number and zeros.
mod arranging;
mod listing;
mod making;
mod placing;
mod screening;
mod taking;

ghost use Rattle.std.specs.Prelude.{◌≡◌};
ghost use Rattle.terms.specs.RefusalNumbers.{code_of};

use crate::refusal::Refusal;

// 0 where a call that answers nothing else is done, else the refusal's number. A function, since `From` can't be
// implemented between two types of the language's own.
pub fn code(done: Result<(), Refusal>) -> u32
    ensures { result ≡ code_of done }
{
    match done {
        Ok(()) => 0,
        Err(refusal) => refusal.number(),
    }
}
