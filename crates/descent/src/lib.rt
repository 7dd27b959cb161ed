// The way down the tree, which every engine that goes down takes: a branch as a value and its two branches, the reading of a node's point, and the
// root box.
#![tactic(auto)]

pub mod joined;
pub mod numbers_box;
pub mod points;
pub mod root;
pub mod runs;
pub mod shelf;
pub mod slots;
pub mod slots_box;
