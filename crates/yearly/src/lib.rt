// A year of a runoff book in a listing: whether its months may be listed, and the sheets to list them from.
#![tactic(auto)]

ghost use Rattle.std.specs.Prelude.{◌≡◌, true, false, MatchOption};
ghost use Rattle.yearly.specs.Years.{part_left};
ghost use Rattle.yearly.specs.Opening.{CanOpenYear, YearOpened};

use answers::Answer;
use lister::Listing;
use places::board::MONTH;
use years::run::judge_year;

// A year is judged as a whole before its first month is listed, since a run that is refused makes no month: its refusal ends the listing.
// Of any other the sheets are answered, from the board's month on, where they stand in the book.
pub fn open_year<'a>(listing: &mut Listing, book: &'a [u8], year: u32) -> Option<&'a [u8]>
    requires { CanOpenYear listing.old }
    ensures opened { YearOpened book.now year listing.old listing.new }
    ensures sheets { MatchOption result (listing.new.more ≡ false) (λ sheets. (listing.new.more ≡ true) × (sheets.now ≡ part_left listing.new.file.now book.now year listing.new.board.now)) }
{
    let board = &mut *listing.board;
    match judge_year(listing.file, book, year, board) {
        Ok(body) => {
            // A cast, since std has no `From` for `u64` to `usize`.
            let first = listing.sheet_size() * listing.board[MONTH] as usize;
            Some(&body[first..])
        }
        Err(refusal) => {
            listing.refuse(Answer::from(refusal));
            None
        }
    }
}
