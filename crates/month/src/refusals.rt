// What month turns down by the lengths of its lists, and by its runoff.
ghost use Rattle.std.specs.Prelude.{◌≡◌};
ghost use Rattle.rules.specs.Tally.{lists_fit, over_limit, over_answer};
ghost use Rattle.records.specs.Bodies.{basin_in};
ghost use Rattle.boards.specs.Bodies.{Counted};
ghost use Rattle.answers.specs.Answers.{refusal_of};
ghost use Rattle.month.specs.Month.{call_with};

use records::bodies::Bodies;
use rules::Refusal;

// The most that may run off at a row in a month.
const MOST_RUNOFF: u32 = 1000000000;

// Whether the lists beside the board have the lengths that the basin asks for: a runoff number to a station, room for the report. That the counts are
// an accepted file's is asked here and by the judgement of a board, and is no part of `Bodies` (`records`).
pub fn lists_fit(bodies: &Bodies<'_>, runoff: &[u32], report: &[u64]) -> bool
    requires { Counted bodies.now }
    ensures { result ≡ lists_fit (basin_in bodies.now) (call_with runoff.now report.now) }
{
    let shape = bodies.shape();
    (runoff.len() == shape.rows) & (shape.report_end() <= report.len())
}

// The first row whose runoff is over the limit. The library's search, as in the checks of a file (`filecheck`), and as short as a call of a
// function for all of them would be.
pub fn judge_runoff(runoff: &[u32]) -> Result<(), Refusal>
    ensures { refusal_of result ≡ over_answer (over_limit runoff.now) }
{
    runoff
        .iter()
        .position(|&flow| flow > MOST_RUNOFF)
        .map_or(Ok(()), |row| Err(Refusal::Runoff(row)))
}
