// A board of a basin: whether it is possible, and its sums.
#![tactic(auto)]

pub mod possible;
pub mod sums;
