// The text of the program shelf on slices: reading what it is given, writing what it answers.
#![tactic(auto)]

mod blocks;
mod cursor;
pub mod input;
mod number;
pub mod output;
mod rows;
