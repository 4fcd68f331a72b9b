// The months of an open file, read in blocks of whole sheets, so that a file of centuries takes no more room than one of a year.
ghost use Rattle.std.specs.Prelude.{◌≤◌, ◌<◌, length};
ghost use Rattle.lister.specs.Lister.{Kept};
ghost use Rattle.printing.specs.Going.{Begun, Going};

use files::reasons::fail;
use files::{FILE_ROOM, fill};
use lister::Listing;
use printing::blocks::list_read;
use printing::output::Unwritten;
use std::io::Read;

// The blocks of more months than any disk holds.
const MOST_BLOCKS: u64 = 140737488355328;

// Reads a block. A read that fails leaves a part that is no whole sheet, so that it is never taken for the end of the file: where it stopped
// between two sheets, the byte that could not be read stands for that part, since whole sheets alone would be listed as a file that ends there.
fn read_block<'a, R: Eprint, F: Read>(
    rt: &R,
    months: &mut F,
    path: &[u8],
    size: usize,
    block: &'a mut [u8],
) -> &'a [u8]
    requires { 0 < size }
    ensures { length result.now ≤ length block.old }
{
    match fill(months, block) {
        Ok(n) => &block[..n],
        Err(e) => {
            fail(rt, path, e.error);
            let n = e.count;
            // No read is made of a full block, so none fails there.
            if n % size != 0 || n == block.len() {
                &block[..n]
            } else {
                &block[..n + 1]
            }
        }
    }
}

// All months of an open file, block after block, until the listing ends. The blocks are counted, since a proved loop has to end, up to more than
// any disk holds.
pub fn list_all<R: Print + Eprint, F: Read>(
    rt: &R,
    months: &mut F,
    path: &[u8],
    listing: &mut Listing,
) -> Result<(), Unwritten>
    requires { Begun listing.old }
    ensures { Going listing.new × Kept listing.old listing.new }
{
    let size = listing.sheet_size();
    let full = FILE_ROOM - FILE_ROOM % size;
    let mut space = [0; FILE_ROOM];
    for _ in 0..MOST_BLOCKS {
        let got = read_block(rt, months, path, size, &mut space[..full]);
        list_read(rt, listing, got, got.len() < full)?;
        if !listing.more {
            break;
        }
    }
    Ok(())
}
