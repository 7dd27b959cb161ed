// What a reading gives, by its values.
#![tactic(auto)]

pub mod value;

ghost use Rattle.std.specs.Prelude.{◌≡◌};
ghost use Rattle.terms.specs.Reading.{gives};

use crate::value::tested_coordinate;
use terms::refusal::Refusal;
use terms::{Colour, Reading, Triple};

// A point, or none where nothing was measured; refused where a value is not finite or out of range.
pub fn convert(reading: Reading) -> Result<Option<Triple>, Refusal>
    ensures { result ≡ gives reading }
{
    match reading {
        Reading::Colour(colour) => from_colour(colour),
        Reading::Grey(value) => from_grey(value),
        Reading::Nothing => Ok(None),
    }
}

// A colour gives a point of three coordinates where all three values are in range.
fn from_colour(colour: Colour) -> Result<Option<Triple>, Refusal>
    ensures { result ≡ gives (Reading.Colour colour) }
{
    Ok(Some(Triple {
        first: tested_coordinate(colour.first)?,
        second: tested_coordinate(colour.second)?,
        third: tested_coordinate(colour.third)?,
    }))
}

// A grey gives its coordinate, then 0 and 0.
fn from_grey(value: f32) -> Result<Option<Triple>, Refusal>
    ensures { result ≡ gives (Reading.Grey value) }
{
    Ok(Some(Triple {
        first: tested_coordinate(value)?,
        second: 0,
        third: 0,
    }))
}
