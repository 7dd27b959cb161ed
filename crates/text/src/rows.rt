// Reading rows of numbers into lent places.
ghost use Rattle.std.specs.Prelude.{◌≡◌, ◌≤◌, length};
ghost use Rattle.text.specs.Input.{line};
ghost use Rattle.text.specs.RowReading.{spaced};
ghost use Rattle.text.specs.Found.{FindsInto, FindsLine};

use crate::cursor::{Bounds, Cursor, SIGNED_BITS};
use crate::number::Stop;

impl Cursor<'_> {
    // Reads a number of 32 signed bits and a space behind it for each place.
    fn read_spaced(&mut self, into: &mut [i32]) -> Option<()>
        ensures found { FindsInto spaced self.old.text.now self.old.at into.old into.new result self.new.at }
        ensures text_unchanged { self.new.text.now ≡ self.old.text.now }
    {
        for place in into {
            *place = self.read_number(Stop::Space, SIGNED_BITS)? as i32;
        }
        Some(())
    }

    // Reads a line: a number of 32 signed bits for each place, and a last number within bounds, which is the answer.
    pub fn read_line(&mut self, into: &mut [i32], bounds: Bounds) -> Option<i64>
        ensures found { FindsLine self.old.text.now self.old.at bounds.deepest bounds.greatest into.old into.new result self.new.at }
        ensures text_unchanged { self.new.text.now ≡ self.old.text.now }
    {
        self.read_spaced(into)?;
        self.read_number(Stop::Newline, bounds)
    }

    // Reads the line of a point, a coordinate for each place.
    pub fn read_point(&mut self, point: &mut [i32]) -> Option<()>
        requires { 1 ≤ length point.old }
        ensures found { FindsInto line self.old.text.now self.old.at point.old point.new result self.new.at }
        ensures text_unchanged { self.new.text.now ≡ self.old.text.now }
    {
        let last = point.len() - 1;
        let coordinate = self.read_line(&mut point[..last], SIGNED_BITS)?;
        point[last] = coordinate as i32;
        Some(())
    }
}
