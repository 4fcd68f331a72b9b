// What the programs share that write to standard output: a listing sent on block by block, and the lines of calls and their answers.
#![tactic(auto)]

pub mod blocks;
pub mod listings;
pub mod output;
pub mod saying;
