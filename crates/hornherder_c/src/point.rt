// The calls that make a point from a reading.
ghost use Rattle.terms.specs.Reading.{colour, grey, nothing};
ghost use Rattle.terms.specs.PointCall.{MadeAs};

use terms::{Colour, Making, Reading};

// The call of this name, for C.
#[unsafe(no_mangle)]
pub extern "C" fn hornherder_point_from_colour(
    first: f32,
    second: f32,
    third: f32,
    place: &mut [i32],
) -> Making
    ensures { MadeAs (colour first second third) place.old result place.new }
{
    let colour = Colour {
        first,
        second,
        third,
    };
    hornherder::point::point_from(Reading::Colour(colour), place).into()
}

// The call of this name, for C.
#[unsafe(no_mangle)]
pub extern "C" fn hornherder_point_from_grey(value: f32, place: &mut [i32]) -> Making
    ensures { MadeAs (grey value) place.old result place.new }
{
    hornherder::point::point_from(Reading::Grey(value), place).into()
}

// The call of this name, for C.
#[unsafe(no_mangle)]
pub extern "C" fn hornherder_point_from_nothing(place: &mut [i32]) -> Making
    ensures { MadeAs nothing place.old result place.new }
{
    hornherder::point::point_from(Reading::Nothing, place).into()
}
