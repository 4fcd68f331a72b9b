// The run of a year: all that is turned down is turned down before the first store. Board and reports are lent one by one, as C lends them; runoff is
// room for a sheet, made once. Bodies and body are what was looked up of file and book, and a month needs both as they are.
ghost use Rattle.std.specs.Prelude.{◌≡◌, true, List, ℕ, length, drop, IfOk};
ghost use Rattle.places.specs.Board.{month_at};
ghost use Rattle.rules.specs.Basin.{rows};
ghost use Rattle.rules.specs.Years.{room_for_year};
ghost use Rattle.records.specs.Records.{basin_of};
ghost use Rattle.records.specs.Bodies.{basin_in};
ghost use Rattle.filecheck.specs.Check.{check_of};
ghost use Rattle.sheets.specs.Sheets.{sheet_at};
ghost use Rattle.book.specs.Book.{body_size, year_part};
ghost use Rattle.answers.specs.Answers.{refusal_of, count_answer};
ghost use Rattle.month.specs.Month.{outcome_of};
ghost use Rattle.month.specs.Run.{Ran};
ghost use Rattle.years.specs.Years.{sheets_in, run_refusal, YearMeets};
ghost use Rattle.years.specs.Runs.{CanJudge, CanMonth, CanRest, RestRan, CanThrough, WentThrough, BodyMeets};

use crate::judging::{MONTHS, judge_sheets, read_sheet};
use boards::possible::judge;
use book::find::{find_year, station_count};
use month::run::run;
use places::board::{BOARD_LENGTH, MONTH};
use records::bodies::Bodies;
use rules::Refusal;

// Month k, whose sheet is within its limit. Answers how many rights are short.
fn run_month(
    bodies: &Bodies<'_>,
    body: &[u8],
    k: usize,
    runoff: &mut [u32],
    board: &mut [u64; BOARD_LENGTH],
    report: &mut [u64],
) -> usize
    requires { CanMonth (basin_in bodies.now) body.now k runoff.old board.old report.old }
    ensures { Ran (basin_in bodies.now) (sheet_at (length runoff.old) body.now k) board.old report.old board.new report.new result }
{
    read_sheet(body, k, runoff);
    run(bodies, runoff, board, report)
}

// The months from `first` on, each report on its own part of the list. `told` is a report's length. A loop and no call of itself, so that a
// year needs little more stack than a month; and the parts by their places, since of parts that `chunks_exact_mut` lends to a loop the proof
// is not told what they were left as (`opening::board::clear_last`).
fn run_rest(
    bodies: &Bodies<'_>,
    body: &[u8],
    first: usize,
    told: usize,
    runoff: &mut [u32],
    board: &mut [u64; BOARD_LENGTH],
    reports: &mut [u64],
)
    requires { CanRest (basin_in bodies.now) body.now first told runoff.old board.old reports.old }
    ensures { RestRan (basin_in bodies.now) (drop first (sheets_in (length runoff.old) body.now)) board.old reports.old board.new reports.new }
{
    let mut at = 0;
    for k in first..MONTHS {
        let end = at + told;
        run_month(bodies, body, k, runoff, board, &mut reports[at..end]);
        at = end;
    }
}

// The months from the board's on, where only the runoff can be turned down. Answers how many they are. No month is run before it is known that
// none will be refused: the sheets are all there to look at, and a month that is run leaves a possible board.
fn run_through(
    bodies: &Bodies<'_>,
    body: &[u8],
    told: usize,
    runoff: &mut [u32],
    board: &mut [u64; BOARD_LENGTH],
    reports: &mut [u64],
) -> Result<usize, Refusal>
    requires { CanThrough (basin_in bodies.now) body.now told runoff.old board.old reports.old }
    ensures { WentThrough (basin_in bodies.now) (drop (month_at board.old) (sheets_in (length runoff.old) body.now)) board.old reports.old (outcome_of (count_answer result) board.new reports.new) }
{
    // A cast, here and below, since std has no `From` for `u64` to `usize`.
    let m = board[MONTH] as usize;
    judge_sheets(body, m, runoff)?;
    run_rest(bodies, body, m, told, runoff, board, reports);
    Ok(MONTHS - m)
}

// A body of the book that fits an accepted file. The file is not checked again.
fn run_body(
    file: &[u8],
    body: &[u8],
    board: &mut [u64],
    reports: &mut [u64],
) -> Result<usize, Refusal>
    requires { (check_of file.now ≡ Ok tt) × (length body.now ≡ body_size (rows (basin_of file.now))) }
    ensures { BodyMeets file.now (sheets_in (rows (basin_of file.now)) body.now) board.old reports.old (outcome_of (count_answer result) board.new reports.new) }
{
    let Some(board) = board.as_mut_array::<BOARD_LENGTH>() else {
        return Err(Refusal::Lists);
    };
    let bodies = Bodies::of(file);
    let told = bodies.shape().report_end();
    judge(MONTHS * told <= reports.len(), &bodies, board)?;
    // Room for the longest sheet, without a heap.
    let mut runoff = [0u32; 64];
    let n = bodies.rows();
    run_through(&bodies, body, told, &mut runoff[..n], board, reports)
}

// What a run of the year from this board would be refused with, whatever the list that it is lent, if only that is long enough. Nothing is run:
// of a year that would not be refused the body is answered.
pub fn judge_year<'a>(
    file: &[u8],
    book: &'a [u8],
    year: u32,
    board: &[u64; BOARD_LENGTH],
) -> Result<&'a [u8], Refusal>
    requires { CanJudge file.now board.now }
    ensures refused { (reports : List ℕ) → room_for_year (basin_of file.now) (length reports) ≡ true → refusal_of result ≡ run_refusal file.now book.now year board.now reports }
    ensures part { IfOk result (λ body. body.now ≡ year_part file.now book.now year) }
{
    let body = find_year(file, book, year)?;
    let n = station_count(file);
    // Room for the longest sheet, as above.
    let mut runoff = [0u32; 64];
    judge_sheets(body, board[MONTH] as usize, &mut runoff[..n])?;
    Ok(body)
}

// A year of the book on a board, from the board's month up to September. Answers how many months were run.
pub fn run_year(
    file: &[u8],
    book: &[u8],
    year: u32,
    board: &mut [u64],
    reports: &mut [u64],
) -> Result<usize, Refusal>
    ensures { YearMeets file.now book.now year board.old reports.old (outcome_of (count_answer result) board.new reports.new) }
{
    let body = find_year(file, book, year)?;
    run_body(file, body, board, reports)
}
