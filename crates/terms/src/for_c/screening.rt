// What C gets of the screen call.
ghost use Rattle.std.specs.Prelude.{◌≡◌};
ghost use Rattle.terms.specs.AnswersForC.{screening_of};

use crate::Screening;
use crate::answers::Screened;
use crate::refusal::Refusal;

impl From<Result<Screened, Refusal>> for Screening {
    ghost from_gives = { λ done answer. answer ≡ screening_of done };

    fn from(done: Result<Screened, Refusal>) -> Screening {
        match done {
            Ok(screened) => Screening {
                code: 0,
                found: u32::from(screened.number.is_some()),
                number: screened.number.unwrap_or(0),
                visits: screened.visits,
            },
            Err(refusal) => Screening {
                code: refusal.number(),
                found: 0,
                number: 0,
                visits: 0,
            },
        }
    }
}
