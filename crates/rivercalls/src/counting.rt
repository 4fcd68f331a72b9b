// The short months of October's five rights: after October, after the whole year and after the next October, which begins the count anew; and
// boards on which nothing is counted.
use crate::october::{REPORT, RIGHTS, SHEET, YEAR_REPORTS, fresh_board, thirteenth};
use crate::saying::{say_months, say_right};
use month::month;
use places::board::{BOARD_LENGTH, WORDS};
use printing::saying::say;
use std::io;
use stock::months::short_months;
use years::run::run_year;

// Refusals 1, 6 and 7; the last for a board of a thirteenth month.
fn refused<R: Print>(rt: &R, file: &[u8]) -> io::Result<()> {
    let mut no_month = [0; BOARD_LENGTH];
    thirteenth(&mut no_month);
    say_months(
        rt,
        b"short months, no file:",
        short_months(&file[..0], &no_month, 0),
    )?;
    say_months(
        rt,
        b"short months, board of 1225:",
        short_months(file, &no_month[1..], 0),
    )?;
    say_months(
        rt,
        b"short months, board of a thirteenth month:",
        short_months(file, &no_month, 0),
    )
}

// Refusal 7 for words: the first right's with a bit more than twelve months have, and a word of a right that October lacks.
fn wrong_words<R: Print>(rt: &R, file: &[u8]) -> io::Result<()> {
    let mut board = [0; BOARD_LENGTH];
    fresh_board(file, &mut board);
    let mut report = [0u64; REPORT];
    board[WORDS] = 4096;
    say_months(
        rt,
        b"short months, a bit above September's:",
        short_months(file, &board, 0),
    )?;
    say(
        rt,
        b"month, a bit above September's:",
        month(file, &SHEET, &mut board, &mut report),
    )?;
    board[WORDS] = 0;
    board[WORDS + RIGHTS] = 1;
    say_months(
        rt,
        b"short months, a word of right 5:",
        short_months(file, &board, 0),
    )
}

// The five rights of October; and two that it lacks, which were never short.
const ALL: [usize; RIGHTS] = [0, 1, 2, 3, 4];

const NONE: [usize; 2] = [RIGHTS, usize::MAX];

fn count<R: Print>(rt: &R, file: &[u8], board: &[u64], rights: &[usize]) -> io::Result<()> {
    for &right in rights {
        say_right(rt, right, short_months(file, board, right))?;
    }
    Ok(())
}

pub fn call<R: Print>(rt: &R, file: &[u8], book: &[u8]) -> io::Result<()> {
    refused(rt, file)?;
    wrong_words(rt, file)?;
    let mut board = [0; BOARD_LENGTH];
    fresh_board(file, &mut board);
    let mut reports = [0u64; YEAR_REPORTS];
    say(
        rt,
        b"October of 1889:",
        month(file, &SHEET, &mut board, &mut reports),
    )?;
    count(rt, file, &board, &ALL)?;
    count(rt, file, &board, &NONE)?;
    say(
        rt,
        b"run of 1889, from November:",
        run_year(file, book, 1889, &mut board, &mut reports),
    )?;
    count(rt, file, &board, &ALL)?;
    say(
        rt,
        b"October of 1890:",
        month(file, &SHEET, &mut board, &mut reports),
    )?;
    count(rt, file, &board, &ALL)
}
