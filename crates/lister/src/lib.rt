// What a program that lists does between reading and writing: it opens a listing, and lists the months sheet by sheet.
#![tactic(auto)]

ghost use Rattle.std.specs.Prelude.{◌≤◌, length};

pub mod beginning;
pub mod blocks;
pub mod parts;
mod texts;

use places::board::BOARD_LENGTH;

// A listing as it is made: the basin file, the board as the last month left it, a list for the report of a month, the list of the text and how many
// bytes of it are written, the months listed, and whether it goes on: a flag beside them, since a listing that has ended is still there to be told and
// its text to be written. The text is a list and a number here and no `Text`: of a list that a struct inside a struct holds, who lent it isn't told what
// it holds afterwards. That its file is accepted and its board possible is asked by each step: of a listing that a refusal has ended neither need hold.
#[derive(Drop)]
pub struct Listing<'a, 't> {
    pub file: &'a [u8],
    pub board: &'a mut [u64; BOARD_LENGTH],
    pub report: &'a mut [u64],
    pub list: &'t mut [u8],
    pub written: usize,
    pub months: u64,
    pub more: bool,
    ghost within: { written ≤ length list.now },
}
