// Lists the months of picked years of a runoff book: `riveryear BASIN BOOK YEAR ..`. The first year is run on the fresh board of the basin, each
// other where the one before left the board. All that is printed is made by `lister`; here it is read and written.
#![tactic(auto)]

ghost use Rattle.std.specs.Prelude.{◌≤◌};
ghost use Rattle.printing.specs.Going.{Begun};
ghost use Rattle.riveryear.specs.Going.{most_asked};

use files::words::{WORD_ROOM, word, word_count};
use files::{FILE_ROOM, read_whole};
use lister::Listing;
use printing::listings::with_listing;
use printing::output::Unwritten;
use std::rt::{Env, Files};

mod picked;
mod words;

// More words than any system hands over, and few enough that their months can be counted.
const MOST_ASKED: usize = 1099511627776;

// How many years are asked for: all words after the two names.
fn years_asked<R: Env>(rt: &R) -> usize
    ensures { result ≤ most_asked }
{
    word_count(rt).saturating_sub(3).min(MOST_ASKED)
}

// The years of the book. It is opened only where a year is asked for. The buffer is longer than any book that keeps the layout, so a book that is
// cut here is refused as the whole would be.
fn list_book<R: Files + Env + Print + Eprint>(
    rt: &R,
    listing: &mut Listing,
) -> Result<(), Unwritten>
    requires { Begun listing.old }
{
    let years = years_asked(rt);
    if years == 0 {
        return Ok(());
    }
    let mut name = [0; WORD_ROOM];
    let mut space = [0; FILE_ROOM];
    let book = read_whole(rt, word(rt, 2, &mut name), &mut space);
    picked::list_years(rt, book, years, listing)
}

// The buffer is longer than any basin file that keeps the layout, so a file that is cut here is refused as the whole would be.
fn main(rt: HostRuntime) {
    let mut name = [0; WORD_ROOM];
    let mut space = [0; FILE_ROOM];
    let file = read_whole(&rt, word(&rt, 1, &mut name), &mut space);
    let _ = with_listing(&rt, file, |listing| list_book(&rt, listing));
}
