// What C gets of the test of one point.
ghost use Rattle.std.specs.Prelude.{◌≡◌};
ghost use Rattle.terms.specs.AnswersForC.{placing_of};

use crate::Placing;
use crate::answers::{LeastMargin, Placed};
use crate::refusal::Refusal;

impl From<Result<Placed, Refusal>> for Placing {
    ghost from_gives = { λ done answer. answer ≡ placing_of done };

    fn from(done: Result<Placed, Refusal>) -> Placing {
        match done {
            Ok(placed) => {
                // Where there are no faces, the zeros that C gets.
                let least = placed.least.unwrap_or(LeastMargin { face: 0, margin: 0 });
                Placing {
                    code: 0,
                    inside: u8::from(placed.inside),
                    measured: u8::from(placed.least.is_some()),
                    face: least.face,
                    margin: least.margin,
                }
            }
            Err(refusal) => Placing {
                code: refusal.number(),
                inside: 0,
                measured: 0,
                face: 0,
                margin: 0,
            },
        }
    }
}
