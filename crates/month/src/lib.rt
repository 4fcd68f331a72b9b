// The call month.
#![tactic(auto)]

ghost use Rattle.answers.specs.Answers.{count_answer};
ghost use Rattle.month.specs.Month.{MonthMeets, outcome_of};

use crate::refusals::lists_fit;
use crate::run::run_sheet;
use boards::possible::judge;
use filecheck::check::check;
use places::board::BOARD_LENGTH;
use records::bodies::Bodies;
use rules::Refusal;

pub mod refusals;
pub mod run;

// All that is turned down is turned down before the first store, in the order of document 01: the file, the lists and the board, then the
// runoff. Answers how many rights are short.
pub fn month(
    file: &[u8],
    runoff: &[u32],
    board: &mut [u64],
    report: &mut [u64],
) -> Result<usize, Refusal>
    ensures { MonthMeets file.now runoff.now board.old report.old (outcome_of (count_answer result) board.new report.new) }
{
    check(file)?;
    let Some(board) = board.as_mut_array::<BOARD_LENGTH>() else {
        return Err(Refusal::Lists);
    };
    let bodies = Bodies::of(file);
    judge(lists_fit(&bodies, runoff, report), &bodies, board)?;
    run_sheet(&bodies, runoff, board, report)
}
