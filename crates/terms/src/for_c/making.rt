// What C gets of a call that makes a point.
ghost use Rattle.std.specs.Prelude.{◌≡◌};
ghost use Rattle.terms.specs.AnswersForC.{making_of};

use crate::Making;
use crate::refusal::Refusal;

impl From<Result<bool, Refusal>> for Making {
    ghost from_gives = { λ done answer. answer ≡ making_of done };

    fn from(done: Result<bool, Refusal>) -> Making {
        match done {
            Ok(made) => Making {
                code: 0,
                made: u32::from(made),
            },
            Err(refusal) => Making {
                code: refusal.number(),
                made: 0,
            },
        }
    }
}
