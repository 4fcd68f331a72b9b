// The worked October by other patterns than its own 50, 30 and 20: of the 805 that return of right 1, the pattern's sum decides what goes
// deep. It is the last number of the report.
use crate::october::{REPORT, SHAPE, SHEET, fresh_board};
use month::month;
use places::board::BOARD_LENGTH;
use printing::saying::{say, say_stock};
use std::io::{self, Write};

// October's only pattern begins at byte 124.
const PATTERN: usize = 124;

// The first three percents of the pattern.
fn set_percents(file: &mut [u8], percents: [u8; 3]) {
    if let Some(pattern) = file.get_mut(PATTERN..PATTERN + 3) {
        pattern.copy_from_slice(&percents);
    }
}

// The month from the fresh board: its answer and, where it is accepted, what went deep, and what it leaves.
fn run<R: Print>(rt: &R, file: &[u8], what: &[u8]) -> io::Result<()> {
    let mut board = [0; BOARD_LENGTH];
    fresh_board(file, &mut board);
    let mut report = [0u64; REPORT];
    let answer = month(file, &SHEET, &mut board, &mut report);
    say(rt, what, answer)?;
    if answer.is_ok() {
        let deep = report[SHAPE.deep_place()];
        rt.write_all(b"deep")?;
        writeln!(io::writer(rt), " {deep}")?;
        say_stock(rt, file, &board)?;
    }
    Ok(())
}

pub fn call<R: Print>(rt: &R, file: &mut [u8]) -> io::Result<()> {
    set_percents(file, [50, 30, 20]);
    run(rt, file, b"month by 50, 30, 20:")?;
    set_percents(file, [50, 30, 0]);
    run(rt, file, b"month by 50, 30:")?;
    set_percents(file, [0, 0, 0]);
    run(rt, file, b"month by zeros:")?;
    set_percents(file, [50, 30, 21]);
    run(rt, file, b"month by 50, 30, 21:")?;
    set_percents(file, [255, 100, 1]);
    run(rt, file, b"month by 255, 100, 1:")
}
