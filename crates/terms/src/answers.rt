// What the calls answer where they are done.

// What the list call found: how many numbers are inside and outside, and how many nodes were visited.
#[derive(Clone, Copy, Debug, PartialEq, Eq)]
pub struct Listed {
    pub inside: u32,
    pub outside: u32,
    pub visits: u32,
}

// What the screen call found: the inside number in the lowest slot, if any, and how many nodes were visited up to there.
#[derive(Clone, Copy, Debug, PartialEq, Eq)]
pub struct Screened {
    pub number: Option<u32>,
    pub visits: u32,
}

// The least margin of a point to the faces of a region, and the lowest-numbered face that has it.
#[derive(Clone, Copy, Debug, PartialEq, Eq)]
pub struct LeastMargin {
    pub face: u16,
    pub margin: i64,
}

// What the test of one point found: whether it is inside, and its least margin where there are faces. The two are apart, since a point is inside or
// outside with or without faces.
#[derive(Clone, Copy, Debug, PartialEq, Eq)]
pub struct Placed {
    pub inside: bool,
    pub least: Option<LeastMargin>,
}
