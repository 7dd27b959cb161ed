// What the text is read by: a place in it, and how far from zero a number may be.
ghost use Rattle.std.specs.Prelude.{◌≤◌, length};

// The text, and the place up to which it has been read.
#[derive(Drop)]
pub struct Cursor<'a> {
    pub text: &'a [u8],
    pub at: usize,
    ghost within: { at ≤ length text.now },
}

// A number lies from -deepest to greatest, neither of which has more than ten digits.
#[derive(Clone, Copy)]
pub struct Bounds {
    pub deepest: u64,
    pub greatest: u64,
    ghost deepest_bound: { deepest ≤ 9999999999 },
    ghost greatest_bound: { greatest ≤ 9999999999 },
}

// The bounds of a coordinate and of a component: 32 signed bits.
pub const SIGNED_BITS: Bounds = Bounds {
    deepest: 2147483648,
    greatest: 2147483647,
};

// The bounds of an offset: ten digits.
pub const TEN_DIGITS: Bounds = Bounds {
    deepest: 9999999999,
    greatest: 9999999999,
};
