// What a value becomes: 256 times it, which is exact, and then the greatest whole number not above that, from its bits.
ghost use Rattle.std.specs.Prelude.{◌≡◌, true, ◌≤◌};
ghost use Rattle.terms.specs.Value.{in_range, coordinate_of};
ghost use Rattle.reading.specs.Bits.{exponent_of, floor_of_bits};
ghost use Rattle.reading.specs.Converted.{coordinate_given};

use terms::refusal::Refusal;

// Whether a value is finite, and from -128 up to but not including 128.
pub fn in_range(value: f32) -> bool
    ensures { result ≡ in_range value }
{
    (value >= -128.0) & (value < 128.0)
}

// The coordinate that a value becomes, or the refusal of one that is not in range.
pub fn tested_coordinate(value: f32) -> Result<i32, Refusal>
    ensures { result ≡ coordinate_given value }
{
    if in_range(value) {
        return Ok(coordinate_of(value));
    }
    Err(Refusal::ValueRange)
}

// The greatest whole number not above 256 times a value.
pub fn coordinate_of(value: f32) -> i32
    requires { in_range value ≡ true }
    ensures { result ≡ coordinate_of value }
{
    let scaled = value * 256.0;
    floor_of_bits(f32::to_bits(scaled))
}

// The greatest whole number not above the float that has these bits, where that is below 65,536 in size. By the bits, since the words tell it by them. The
// sign is whether 2 to the 31 is in it. Below 1 in size it is 0 or -1; from there on the 24 digits less those after the point, and below 0 one whole number
// further down.
fn floor_of_bits(bits: u32) -> i32
    requires { exponent_of bits ≤ 142 }
    ensures { result ≡ floor_of_bits bits }
{
    let exponent = bits % 2147483648 / 8388608;
    if exponent < 127 {
        if bits <= 2147483648 {
            return 0;
        }
        return -1;
    }
    let digits = 8388608 + bits % 8388608;
    let shift = 150 - exponent;
    if bits < 2147483648 {
        let whole = digits >> shift;
        return whole as i32;
    }
    let whole = (digits - 1) >> shift;
    -1 - whole as i32
}
