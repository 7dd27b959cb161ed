// The values that the calls share: the box as one value, a reading and the point that it gives, a reason, and the answers as C has them.
#![tactic(auto)]

pub mod answers;
pub mod axis;
pub mod for_c;
pub mod lent;
pub mod refusal;

// A box: its least and its greatest coordinate in each dimension. Places from k on mean nothing.
#[derive(Clone, Copy)]
pub struct CornerRows {
    pub low: [i32; 4],
    pub high: [i32; 4],
}

// A colour: its three floats.
#[derive(Clone, Copy)]
pub struct Colour {
    pub first: f32,
    pub second: f32,
    pub third: f32,
}

// A reading: a colour, a grey of one value, or nothing measured.
#[derive(Clone, Copy)]
pub enum Reading {
    Colour(Colour),
    Grey(f32),
    Nothing,
}

// The three numbers of a point that a reading becomes.
#[derive(Clone, Copy)]
pub struct Triple {
    pub first: i32,
    pub second: i32,
    pub third: i32,
}

// Why a number is inside or outside: settled with a whole branch, or by its own test. The slot comes first, then, for outside, the face and the margin of
// the number's point to it.
#[derive(Clone, Copy)]
pub enum Reason {
    InsideWithBranch(usize),
    InsideByItself(usize),
    OutsideWithBranch(usize, usize, i64),
    OutsideByItself(usize, usize, i64),
}

// The answers from here on are C's: a number beside what was found, since C has no `Result`.

// What a call that makes a point answers: made is 1, or 0 where nothing was measured. A refusal has its number and 0.
#[repr(C)]
#[derive(Clone, Copy)]
pub struct Making {
    pub code: u32,
    pub made: u32,
}

// What the list call answers. A refusal has its number and zeros.
#[repr(C)]
#[derive(Clone, Copy)]
pub struct Listing {
    pub code: u32,
    pub inside: u32,
    pub outside: u32,
    pub visits: u32,
}

// What the screen call answers: found is 1 or 0, and where it is 0 so is the number. A refusal has its number and zeros.
#[repr(C)]
#[derive(Clone, Copy)]
pub struct Screening {
    pub code: u32,
    pub found: u32,
    pub number: u32,
    pub visits: u32,
}

// What the test of one point answers: inside is 1 or 0; measured is 1 where there are faces, with the least margin and the lowest-numbered face that has
// it, and 0 with zeros where there are none. A refusal has its number and zeros.
#[repr(C)]
#[derive(Clone, Copy)]
pub struct Placing {
    pub code: u32,
    pub inside: u8,
    pub measured: u8,
    pub face: u16,
    pub margin: i64,
}

// What the explain call answers: the reason is 1 or 2 inside, 3 or 4 outside, 1 and 3 with a whole branch, 2 and 4 by its own test; face and margin are 0
// for inside. A refusal has its number and zeros.
#[repr(C)]
#[derive(Clone, Copy)]
pub struct Explaining {
    pub code: u32,
    pub reason: u8,
    pub face: u8,
    pub slot: u16,
    pub margin: i64,
}

// The answer of the arrange call: 1 where the order was the tree already, else 0. A refusal has its number and 0.
#[repr(C)]
#[derive(Clone, Copy)]
pub struct Arranging {
    pub code: u32,
    pub already: u32,
}

// What the take call answers: the number taken. A refusal has its number and 0.
#[repr(C)]
#[derive(Clone, Copy)]
pub struct Taking {
    pub code: u32,
    pub number: u32,
}
