// The library's calls, a file for each: arrange, list, list of several regions, screen, explain, take, withdraw, the test of one point, and the one that makes
// a point from a reading. Each makes its refusal tests first, then does the work. These and the version are all that programs call; they take any numbers
// and any lent memory. Crate hornherder_c hands them to C.
#![tactic(auto)]

pub mod arranging;
pub mod explain;
mod faces;
pub mod list;
pub mod list_regions;
mod live;
pub mod place;
pub mod point;
mod ranges;
mod refuse;
pub mod screen;
mod shaped;
pub mod take;
pub mod version;
pub mod withdraw;
