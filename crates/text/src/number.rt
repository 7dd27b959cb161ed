// Reading one number of the text.
ghost use Rattle.std.specs.Prelude.{◌≡◌, ℕ, ◌≤◌, length};
ghost use Rattle.text.specs.DecimalLaws.{Digits, value_from};
ghost use Rattle.text.specs.Reading.{DigitsEnd, NoSign, Sign};
ghost use Rattle.text.specs.Found.{byte_of, FindsNatural, FindsSize, FindsNumber};

use crate::cursor::{Bounds, Cursor};

// The byte behind a number: a space if others follow on the line, else a newline.
#[derive(Clone, Copy)]
pub enum Stop {
    Newline = 10,
    Space = 32,
}

impl Stop {
    // The stop as the byte that it is.
    fn byte(self) -> u8
        ensures { result ≡ byte_of self }
    {
        self as u8
    }
}

// The number that at most ten digits say.
fn digits_value(digits: &[u8]) -> u64
    requires length_bound { length digits.now ≤ 10 }
    requires digits { Digits digits.now }
    ensures { result ≡ value_from 0 digits.now }
{
    let mut value: u64 = 0;
    for digit in digits {
        value = value * 10 + u64::from(digit - b'0');
    }
    value
}

impl Cursor<'_> {
    // Where the digits end that start at the place.
    fn digits_end(&self) -> usize
        ensures { DigitsEnd self.now.text.now self.now.at result }
    {
        let rest = &self.text[self.at..];
        match rest.iter().position(|byte| !byte.is_ascii_digit()) {
            Some(count) => self.at + count,
            None => self.text.len(),
        }
    }

    // Reads a natural number and the byte behind it: at most ten digits, no zero in front of others.
    fn read_natural(&mut self, stop: Stop) -> Option<u64>
        ensures found { FindsNatural self.old.text.now self.old.at (byte_of stop) result self.new.at }
        ensures text_unchanged { self.new.text.now ≡ self.old.text.now }
    {
        let end = self.digits_end();
        if end >= self.text.len() {
            return None;
        }
        if self.text[end] != stop.byte() {
            return None;
        }
        let count = end - self.at;
        if count == 0 {
            return None;
        }
        if count > 10 {
            return None;
        }
        let several = count > 1;
        let first = self.text[self.at];
        if several && first == b'0' {
            return None;
        }
        let value = digits_value(&self.text[self.at..end]);
        self.at = end + 1;
        Some(value)
    }

    // Reads a natural number from least to greatest and the byte behind it.
    pub fn read_size(&mut self, stop: Stop, least: u64, greatest: u64) -> Option<u64>
        requires greatest_bound { greatest ≤ 9999999999 }
        ensures found { FindsSize self.old.text.now self.old.at (byte_of stop) least greatest result self.new.at }
        ensures text_unchanged { self.new.text.now ≡ self.old.text.now }
    {
        let n = self.read_natural(stop)?;
        if n < least {
            return None;
        }
        if n > greatest {
            return None;
        }
        Some(n)
    }

    // Reads a number from 0 to greatest and the byte behind it, where no minus sign stands.
    fn read_unsigned(&mut self, stop: Stop, greatest: u64) -> Option<i64>
        requires { NoSign self.old.text.now self.old.at (byte_of stop) greatest }
        ensures found { (deepest : ℕ) → FindsNumber self.old.text.now self.old.at (byte_of stop) deepest greatest result self.new.at }
        ensures text_unchanged { self.new.text.now ≡ self.old.text.now }
    {
        let n = self.read_size(stop, 0, greatest)?;
        Some(n as i64)
    }

    // Reads a number from -deepest to -1 and the byte behind it, where a minus sign stands: "-0" is none.
    fn read_negative(&mut self, stop: Stop, deepest: u64) -> Option<i64>
        requires { Sign self.old.text.now self.old.at (byte_of stop) deepest }
        ensures found { (greatest : ℕ) → FindsNumber self.old.text.now self.old.at (byte_of stop) deepest greatest result self.new.at }
        ensures text_unchanged { self.new.text.now ≡ self.old.text.now }
    {
        self.at += 1;
        let n = self.read_size(stop, 1, deepest)?;
        Some(-(n as i64))
    }

    // Reads a number within bounds and the byte behind it.
    pub fn read_number(&mut self, stop: Stop, bounds: Bounds) -> Option<i64>
        ensures found { FindsNumber self.old.text.now self.old.at (byte_of stop) bounds.deepest bounds.greatest result self.new.at }
        ensures text_unchanged { self.new.text.now ≡ self.old.text.now }
    {
        if self.at >= self.text.len() {
            return None;
        }
        if self.text[self.at] == b'-' {
            return self.read_negative(stop, bounds.deepest);
        }
        self.read_unsigned(stop, bounds.greatest)
    }
}
