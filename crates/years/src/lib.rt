// A year of the runoff book, run on a board (document 02, No. 4).
#![tactic(auto)]

pub mod judging;
pub mod run;
