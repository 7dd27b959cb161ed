// A point and a box against the faces of a region.
#![tactic(auto)]

pub mod boxes;
pub mod faces;
pub mod judge;
pub mod live;
pub mod lowest;
pub mod measure;
pub mod table;
pub mod tested;
