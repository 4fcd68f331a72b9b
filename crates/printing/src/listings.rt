// A listing from its start to its end.
ghost use Rattle.printing.specs.Going.{Begun};

use crate::output::{Unwritten, write};
use files::FILE_ROOM;
use lister::Listing;
use places::board::BOARD_LENGTH;
use places::report::MOST_REPORT;

// The listing of a basin: where its file is not turned down `list` goes on with it. It may ask for a listing that has just begun: that is true only
// at first, so that no field of `Listing` can promise it. What is left of the text at the end is written.
pub fn with_listing<R: Print + Eprint, F: FnOnce(&mut Listing<'_, '_>) -> Result<(), Unwritten>>(
    rt: &R,
    file: &[u8],
    list: F,
) -> Result<(), Unwritten>
    requires { (l : _) → Begun l.now → F.pre list l }
{
    let mut board = [0u64; BOARD_LENGTH];
    let mut report = [0u64; MOST_REPORT];
    let mut out = [0; FILE_ROOM];
    let mut listing = Listing::open(file, &mut board, &mut report, &mut out);
    if listing.more {
        list(&mut listing)?;
    }
    write(rt, listing.bytes())
}
