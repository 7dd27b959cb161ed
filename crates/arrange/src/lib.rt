// The shelf's order: keys, the builder that arranges the lent order in place, and the checker of an order.
#![tactic(auto)]

pub mod below;
pub mod build;
pub mod check;
pub mod choose;
pub mod key;
pub mod live;
