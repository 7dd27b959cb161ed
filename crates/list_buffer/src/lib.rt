// The list buffer: numbers inside from the front, numbers outside backwards from the end. Of the slots listed so far, those not inside are outside.
#![tactic(auto)]

pub mod copiers;
pub mod placing;
