// Looks years up in a book of October's basin and runs them on a board that stands in November. The book has two years: 1889, each month of it
// the worked October's sheet, and 1890, whose March is over the limit at the second and third stations.
use crate::october::{YEAR_REPORTS, thirteenth};
use book::find::find_year;
use places::board::BOARD_LENGTH;
use printing::saying::{say, say_stock};
use std::io;
use years::run::run_year;

// Whether the book lists a year.
fn say_listed<R: Print>(
    rt: &R,
    what: &[u8],
    file: &[u8],
    book: &[u8],
    year: u32,
) -> io::Result<()> {
    say(rt, what, find_year(file, book, year).map(|_| ()))
}

// Refusals 1, 9 and 10.
fn look_up<R: Print>(rt: &R, file: &[u8], book: &[u8]) -> io::Result<()> {
    say_listed(rt, b"year, no file:", &file[..0], book, 1889)?;
    say_listed(rt, b"year, no book:", file, &book[..0], 1889)?;
    say_listed(rt, b"year 1888:", file, book, 1888)?;
    say_listed(rt, b"year 1889:", file, book, 1889)
}

// A list that is one number short of twelve reports. Refusals 9 and 10 come before 6, and 6 before 8.
fn short_lists<R: Print>(rt: &R, file: &[u8], book: &[u8], board: &mut [u64]) -> io::Result<()> {
    let mut few = [0u64; YEAR_REPORTS - 1];
    say(
        rt,
        b"run of 1888, list of 335:",
        run_year(file, book, 1888, board, &mut few),
    )?;
    say(
        rt,
        b"run, no book, list of 335:",
        run_year(file, &book[..0], 1889, board, &mut few),
    )?;
    say(
        rt,
        b"run of 1890, list of 335:",
        run_year(file, book, 1890, board, &mut few),
    )
}

// Refusal 7 comes before 8.
fn refused_runs<R: Print>(
    rt: &R,
    file: &[u8],
    book: &[u8],
    board: &mut [u64],
    reports: &mut [u64],
) -> io::Result<()> {
    let mut no_month = [0; BOARD_LENGTH];
    thirteenth(&mut no_month);
    say(
        rt,
        b"run of 1890, board of a thirteenth month:",
        run_year(file, book, 1890, &mut no_month, reports),
    )?;
    say(
        rt,
        b"run of 1890, March over the limit:",
        run_year(file, book, 1890, board, reports),
    )?;
    say_stock(rt, file, board)
}

pub fn call<R: Print>(rt: &R, file: &[u8], book: &[u8], board: &mut [u64]) -> io::Result<()> {
    let mut reports = [0u64; YEAR_REPORTS];
    look_up(rt, file, book)?;
    short_lists(rt, file, book, board)?;
    refused_runs(rt, file, book, board, &mut reports)?;
    say(
        rt,
        b"run of 1889, from November:",
        run_year(file, book, 1889, board, &mut reports),
    )?;
    say_stock(rt, file, board)
}
