// What C gets of the take call.
ghost use Rattle.std.specs.Prelude.{◌≡◌};
ghost use Rattle.terms.specs.AnswersForC.{taking_of};

use crate::Taking;
use crate::refusal::Refusal;

impl From<Result<u32, Refusal>> for Taking {
    ghost from_gives = { λ done answer. answer ≡ taking_of done };

    fn from(done: Result<u32, Refusal>) -> Taking {
        match done {
            Ok(number) => Taking { code: 0, number },
            Err(refusal) => Taking {
                code: refusal.number(),
                number: 0,
            },
        }
    }
}
