// Lists the months of `months.bin` on the basin of `basin.bin`, both in the folder that it is run in. Given names, two to a listing, it lists
// those files instead, one listing after another. All that is printed is made by `lister`; here it is read and written.
#![tactic(auto)]

ghost use Rattle.std.specs.Prelude.{◌<◌};
ghost use Rattle.printing.specs.Going.{Begun};

use files::reasons::fail;
use files::words::{WORD_ROOM, word, word_count};
use files::{FILE_ROOM, open_read, read_whole};
use lister::Listing;
use printing::listings::with_listing;
use printing::output::Unwritten;
use std::rt::{Env, Files};

mod blocks;

// The months of a file. Such as can't be opened are listed as none.
fn list_months<R: Files + Print + Eprint>(
    rt: &R,
    months: &[u8],
    listing: &mut Listing,
) -> Result<(), Unwritten>
    requires { Begun listing.old }
{
    match open_read(rt, months) {
        Ok(mut sheets) => blocks::list_all(rt, &mut sheets, months, listing),
        Err(e) => {
            fail(rt, months, e);
            Ok(())
        }
    }
}

// The buffer is longer than any basin file that keeps the layout, so a file that is cut here is refused as the whole would be.
fn list<R: Files + Print + Eprint>(rt: &R, basin: &[u8], months: &[u8]) -> Result<(), Unwritten> {
    let mut space = [0; FILE_ROOM];
    let file = read_whole(rt, basin, &mut space);
    with_listing(rt, file, |listing| list_months(rt, months, listing))
}

// The names that stand from argument i on, words being asked for by number (`files::words`); a name that is not there names no file.
fn list_named<R: Files + Env + Print + Eprint>(rt: &R, i: usize) -> Result<(), Unwritten>
    requires { i < 18446744073709551615 }
{
    let mut basin = [0; WORD_ROOM];
    let mut months = [0; WORD_ROOM];
    list(rt, word(rt, i, &mut basin), word(rt, i + 1, &mut months))
}

fn main(rt: HostRuntime) {
    let count = word_count(&rt);
    if count < 2 {
        let _ = list(&rt, b"basin.bin", b"months.bin");
        return;
    }
    for i in (1..count).step_by(2) {
        if list_named(&rt, i).is_err() {
            return;
        }
    }
}
