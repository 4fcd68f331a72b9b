// The runoff book: its layout, and the look-up of a year in it (02, No. 4).
#![tactic(auto)]

mod contents;
pub mod find;
