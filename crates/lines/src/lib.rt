// The lines of a listing, put into a text. What they are is defined in `listing`.
#![tactic(auto)]

pub mod frame;
pub mod month_lines;
pub mod text;
mod words;
