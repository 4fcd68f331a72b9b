// The places of a board and of a report: where each of their numbers stands, and how many there are (document 01, "The board and one month").
// No other crate knows: they ask here.
#![tactic(auto)]

pub mod board;
pub mod report;
