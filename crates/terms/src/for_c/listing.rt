// What C gets of the list call.
ghost use Rattle.std.specs.Prelude.{◌≡◌};
ghost use Rattle.terms.specs.AnswersForC.{listing_of};

use crate::Listing;
use crate::answers::Listed;
use crate::refusal::Refusal;

impl From<Result<Listed, Refusal>> for Listing {
    ghost from_gives = { λ done answer. answer ≡ listing_of done };

    fn from(done: Result<Listed, Refusal>) -> Listing {
        match done {
            Ok(listed) => Listing {
                code: 0,
                inside: listed.inside,
                outside: listed.outside,
                visits: listed.visits,
            },
            Err(refusal) => Listing {
                code: refusal.number(),
                inside: 0,
                outside: 0,
                visits: 0,
            },
        }
    }
}
