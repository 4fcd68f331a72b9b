// One month of the bodies of an accepted file, on a possible board. Runoff, board and report are lent one by one, as C lends them. A board is possible
// in one basin and not in another, so that no type of either could say it: what runs months asks it, here and in `years`.
ghost use Rattle.records.specs.Bodies.{basin_in};
ghost use Rattle.answers.specs.Answers.{count_answer};
ghost use Rattle.month.specs.Month.{outcome_of};
ghost use Rattle.month.specs.Run.{CanRun, Ran, CanRunSheet, SheetRan};

use crate::refusals::judge_runoff;
use closing::end;
use opening::begin;
use places::board::{BOARD_LENGTH, MONTH};
use records::bodies::Bodies;
use records::network::RowsBelow;
use records::patterns::add_up;
use river::River;
use river::setting::Setting;
use rules::Refusal;
use turns::lines::serve_all;

// The month itself. Answers how many rights are short.
pub fn run(
    bodies: &Bodies<'_>,
    runoff: &[u32],
    board: &mut [u64; BOARD_LENGTH],
    report: &mut [u64],
) -> usize
    requires { CanRun (basin_in bodies.now) runoff.now board.old report.old }
    ensures { Ran (basin_in bodies.now) runoff.now board.old report.old board.new report.new result }
{
    let mut below = RowsBelow::none();
    below.look_up(bodies.stations);
    let mut sums = [[0; 12]; 16];
    add_up(bodies.patterns, &mut sums);
    let setting = Setting {
        bodies: &*bodies,
        below: &below,
        sums: &sums,
    };
    let mut river = River {
        flow: [0; 64],
        available: [0; 64],
    };
    let mut short = [false; 64];
    begin(setting.below, runoff, &mut river, board);
    // A cast, since std has no `From` for `u64` to `usize`.
    let m = board[MONTH] as usize;
    let deep = serve_all(&setting, m, &mut river, &mut short, board, report);
    end(bodies, &river, deep, board, report)
}

// The month with any sheet of runoff: a caller that keeps an accepted file and a possible board need not have them tested again.
pub fn run_sheet(
    bodies: &Bodies<'_>,
    runoff: &[u32],
    board: &mut [u64; BOARD_LENGTH],
    report: &mut [u64],
) -> Result<usize, Refusal>
    requires { CanRunSheet (basin_in bodies.now) runoff.now board.old report.old }
    ensures { SheetRan (basin_in bodies.now) runoff.now board.old report.old (outcome_of (count_answer result) board.new report.new) }
{
    judge_runoff(runoff)?;
    Ok(run(bodies, runoff, board, report))
}
