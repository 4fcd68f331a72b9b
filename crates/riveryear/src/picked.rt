// The years asked for, one after another.
ghost use Rattle.lister.specs.Lister.{Kept};
ghost use Rattle.printing.specs.Going.{Going};
ghost use Rattle.riveryear.specs.Going.{CanListYears, YearWent};

use crate::words::year_asked;
use lister::Listing;
use printing::blocks::list_read;
use printing::output::{Unwritten, room_for_month};
use std::rt::Env;
use yearly::open_year;

// One year: the refusal of its run, or its months from the board's on.
fn list_year<R: Print + Eprint>(
    rt: &R,
    book: &[u8],
    year: u32,
    listing: &mut Listing,
) -> Result<(), Unwritten>
    requires { CanListYears 1 listing.old }
    ensures { YearWent listing.old listing.new }
{
    room_for_month(rt, listing)?;
    match open_year(listing, book, year) {
        Some(sheets) => list_read(rt, listing, sheets, false),
        None => Ok(()),
    }
}

// Year after year, until one ends the listing. The first is named by the third argument, and words are asked for by number (`files::words`).
pub fn list_years<R: Env + Print + Eprint>(
    rt: &R,
    book: &[u8],
    years: usize,
    listing: &mut Listing,
) -> Result<(), Unwritten>
    requires { CanListYears years listing.old }
    ensures { Going listing.new × Kept listing.old listing.new }
{
    for k in 0..years {
        let year = year_asked(rt, k + 3);
        list_year(rt, book, year, listing)?;
        if !listing.more {
            break;
        }
    }
    Ok(())
}
