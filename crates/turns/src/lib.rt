// The turns of the rights in a month, in order, with their lines in the report. The setting is read by all stages of a turn; the river, the short
// rows, the board and the report are lent beside it one by one, each to the stages that change it.
#![tactic(auto)]

pub mod lines;
pub mod serve;
