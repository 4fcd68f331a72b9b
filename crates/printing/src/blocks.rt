// A block of sheets, listed and written.
ghost use Rattle.std.specs.Prelude.{◌≡◌, false, cond, ltb, IfOk};
ghost use Rattle.lister.specs.Lister.{PassedAll};
ghost use Rattle.printing.specs.Going.{CanRead, Went};

use crate::output::{Unwritten, room_for_month};
use lister::Listing;

// Whether nothing more can be listed before more is read: no whole sheet is left, and the file does not end here.
fn used_up(last: bool, left: usize, size: usize) -> bool
    ensures { result ≡ cond last false (ltb left size) }
{
    !last && left < size
}

// Lists what was read, with a write wherever a month more might not fit into the text. A `while`, since each step tells how far it came.
pub fn list_read<R: Print + Eprint>(
    rt: &R,
    listing: &mut Listing,
    block: &[u8],
    last: bool,
) -> Result<(), Unwritten>
    requires { CanRead block.now listing.old }
    ensures went { Went block.now listing.old listing.new }
    ensures whole_sheets { IfOk result (λ _. PassedAll block.now last listing.old listing.new) }
{
    let size = listing.sheet_size();
    let mut rest = block;
    while listing.more && !used_up(last, rest.len(), size) {
        room_for_month(rt, listing)?;
        let used = listing.list_block(rest, last);
        rest = &rest[used..];
    }
    Ok(())
}
