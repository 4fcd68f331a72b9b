// A dry spring is tried, and then March is returned to.
ghost use Rattle.std.specs.Prelude.{◌≤◌, length};

use crate::listed::list_months;
use crate::planning::Plan;
use crate::saying::say_compared;
use files::FILE_ROOM;
use fresh::fresh;
use lister::Listing;
use places::board::BOARD_LENGTH;
use printing::output::write;
use std::io;

// The month of the year that March is.
const MARCH: u32 = 5;

// The header, and the fresh board. A board of another length begins no listing.
fn list_fresh<R: Print + Eprint>(
    rt: &R,
    file: &[u8],
    board: &mut [u64],
    out: &mut [u8; FILE_ROOM],
) {
    let Some(board) = board.as_mut_array() else {
        return;
    };
    let listing = Listing::open(file, board, &mut [], out);
    let _ = write(rt, listing.bytes());
}

// The same for a plan.
fn begin<R: Print + Eprint>(rt: &R, plan: &mut Plan, out: &mut [u8; FILE_ROOM]) {
    let board = &mut *plan.board;
    list_fresh(rt, plan.file, board, out);
}

// What the dry spring leaves is saved too, so that it can be looked at later.
fn dry_spring<R: Print + Eprint>(
    rt: &R,
    plan: &mut Plan,
    dry: &[u8],
    out: &mut [u8],
) -> io::Result<()> {
    plan.save(rt, b"save MARCH:", b"MARCH   ")?;
    plan.print_months(rt, dry, MARCH, out);
    plan.save(rt, b"save DRY:", b"DRY     ")?;
    plan.recall(rt, b"recall MARCH:", b"MARCH   ")
}

// The spring of a year that was run from the fresh board without any trial; the board is made in two lines, as in `rivercalls`. A file that has none
// was turned down by the first line printed, and leaves zeros here, from which its months are turned down as well. The text of the winter is written
// over.
fn list_untried<'t>(file: &[u8], winter: &[u8], spring: &[u8], out: &'t mut [u8]) -> &'t [u8]
    ensures { length result.now ≤ length out.old }
{
    let mut board = [0u64; BOARD_LENGTH];
    let _ = fresh(file, &mut board);
    list_months(file, winter, 0, &mut board, &mut *out);
    list_months(file, spring, MARCH, &mut board, out)
}

// Whether the spring that was printed is that of a year without any trial, byte for byte.
fn compare<R: Print>(
    rt: &R,
    file: &[u8],
    winter: &[u8],
    spring: &[u8],
    printed: &[u8],
) -> io::Result<()> {
    let mut out = [0; FILE_ROOM];
    let untried = list_untried(file, winter, spring, &mut out);
    say_compared(rt, printed.len(), printed == untried)
}

pub fn try_dry<R: Print + Eprint>(
    rt: &R,
    plan: &mut Plan,
    winter: &[u8],
    spring: &[u8],
    dry: &[u8],
) -> io::Result<()> {
    let mut out = [0; FILE_ROOM];
    begin(rt, plan, &mut out);
    plan.print_months(rt, winter, 0, &mut out);
    dry_spring(rt, plan, dry, &mut out)?;
    let printed = plan.print_months(rt, spring, MARCH, &mut out);
    compare(rt, plan.file, winter, spring, printed)
}
