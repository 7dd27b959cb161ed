// What C gets of the arrange call.
ghost use Rattle.std.specs.Prelude.{◌≡◌};
ghost use Rattle.terms.specs.AnswersForC.{arranging_of};

use crate::Arranging;
use crate::refusal::Refusal;

impl From<Result<bool, Refusal>> for Arranging {
    ghost from_gives = { λ done answer. answer ≡ arranging_of done };

    fn from(done: Result<bool, Refusal>) -> Arranging {
        match done {
            Ok(already) => Arranging {
                code: 0,
                already: u32::from(already),
            },
            Err(refusal) => Arranging {
                code: refusal.number(),
                already: 0,
            },
        }
    }
}
