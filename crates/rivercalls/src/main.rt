// Calls fresh, month and stock on the October basin, with numbers that are turned down and then with good ones, and prints each answer; then
// the same of years of a book. The good month and the good year come last, so they show that the calls before them changed nothing. Then the
// short months of October's rights over a year and a month; last the same October by other patterns, with what goes deep.
// File, book, board and report are lent one by one, as the calls take them, so that each line shows a call as a caller writes it.
#![tactic(auto)]

ghost use Rattle.std.specs.Prelude.{◌≤◌, length};

use files::{FILE_ROOM, fill, open_read};
use fresh::fresh;
use month::month;
use october::{REPORT, SHEET, thirteenth};
use places::board::BOARD_LENGTH;
use printing::saying::{say, say_stock};
use std::io;
use std::rt::Files;

mod booked;
mod counting;
mod october;
mod saying;
mod seeping;

// Room for the book of two years.
const BOOK_ROOM: usize = 4096;

// What can be read of a file, as far as a failure, which the answers to it will show; nothing of one that can't be opened. No reason is told, and
// what came before the failure is used: `files::read_file` gives that up, and `read_whole` tells the reason besides.
fn read_file<'a, R: Files>(rt: &R, name: &[u8], buf: &'a mut [u8]) -> &'a [u8]
    ensures { length result.now ≤ length buf.old }
{
    let Ok(mut file) = open_read(rt, name) else {
        return &[];
    };
    let n = fill(&mut file, buf).unwrap_or_else(|e| e.count);
    &buf[..n]
}

// Refusal 6: a list that is too short or too long.
fn wrong_lengths<R: Print>(
    rt: &R,
    file: &[u8],
    board: &mut [u64],
    report: &mut [u64],
) -> io::Result<()> {
    let mut short = [0u64; BOARD_LENGTH - 1];
    say(rt, b"fresh, board of 1225:", fresh(file, &mut short))?;
    say(
        rt,
        b"month, board of 1225:",
        month(file, &SHEET, &mut short, report),
    )?;
    say(
        rt,
        b"month, runoff of two rows:",
        month(file, &SHEET[..2], board, report),
    )?;
    say(
        rt,
        b"month, runoff of four rows:",
        month(file, &[2000, 700, 300, 0], board, report),
    )?;
    let mut few = [0u64; REPORT - 1];
    say(
        rt,
        b"month, report of 27:",
        month(file, &SHEET, board, &mut few),
    )
}

// Refusal 7: a board that no run of months can leave. Refusal 8: runoff over its limit.
fn wrong_numbers<R: Print>(
    rt: &R,
    file: &[u8],
    board: &mut [u64],
    report: &mut [u64],
) -> io::Result<()> {
    let sheet = [2000u32, 1000000001, 4294967295];
    let mut no_month = [0; BOARD_LENGTH];
    thirteenth(&mut no_month);
    say(
        rt,
        b"month, board of a thirteenth month:",
        month(file, &sheet, &mut no_month, report),
    )?;
    say_stock(rt, file, &no_month)?;
    say(
        rt,
        b"month, runoff over its limit:",
        month(file, &sheet, board, report),
    )
}

fn call<R: Print>(rt: &R, file: &[u8], book: &[u8]) -> io::Result<()> {
    let mut board = [7u64; BOARD_LENGTH];
    let mut report = [0u64; REPORT];
    say(rt, b"fresh, no file:", fresh(&file[..0], &mut board))?;
    say(rt, b"fresh:", fresh(file, &mut board))?;
    wrong_lengths(rt, file, &mut board, &mut report)?;
    wrong_numbers(rt, file, &mut board, &mut report)?;
    say(rt, b"month:", month(file, &SHEET, &mut board, &mut report))?;
    say_stock(rt, file, &board)?;
    booked::call(rt, file, book, &mut board)
}

// A file that can't be read counts as empty.
fn main(rt: HostRuntime) -> io::Result<()> {
    let mut space = [0; FILE_ROOM];
    let file = read_file(&rt, b"october.basin.bin", &mut space);
    let mut book_space = [0; BOOK_ROOM];
    let book = read_file(&rt, b"october.book.bin", &mut book_space);
    call(&rt, file, book)?;
    counting::call(&rt, file, book)?;
    let n = file.len();
    seeping::call(&rt, &mut space[..n])
}
