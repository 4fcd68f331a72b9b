// The sheets of a year's body, and the look for runoff over its limit. The list runoff has a number to a station, and is lent
// for each sheet anew. That the body has twelve sheets of that length each function asks: the list is the month's runoff after it, so that a struct of
// both would be taken apart for every month.
ghost use Rattle.std.specs.Prelude.{◌≡◌, ◌≤◌, ◌<◌, length, drop};
ghost use Rattle.rules.specs.Tally.{over_limit, over_answer};
ghost use Rattle.answers.specs.Answers.{refusal_of};
ghost use Rattle.sheets.specs.Sheets.{sheet_at};
ghost use Rattle.years.specs.Years.{sheets_in};
ghost use Rattle.years.specs.Runs.{first_over, CanRead};

use month::refusals::judge_runoff;
use rules::Refusal;
use sheets::{decode, sheet_size};

// The months of a year.
pub const MONTHS: usize = 12;

// The sheet of month k.
pub fn read_sheet(body: &[u8], k: usize, runoff: &mut [u32])
    requires { CanRead body.now runoff.old × (k < 12) }
    ensures { runoff.new ≡ sheet_at (length runoff.old) body.now k }
{
    let size = sheet_size(runoff.len());
    let at = size * k;
    let end = at + size;
    decode(&body[at..end], runoff);
}

// The first row over its limit in the sheet of month k.
fn judge_sheet(body: &[u8], k: usize, runoff: &mut [u32]) -> Result<(), Refusal>
    requires { CanRead body.now runoff.old × (k < 12) }
    ensures { refusal_of result ≡ over_answer (over_limit (sheet_at (length runoff.old) body.now k)) }
{
    read_sheet(body, k, runoff);
    judge_runoff(runoff)
}

// That of the first sheet that has one, from month `first` on. The sheets go by number, as the run reads them after: `chunks_exact` must not be
// given 0, and this contract does not rule out a list of no station.
pub fn judge_sheets(body: &[u8], first: usize, runoff: &mut [u32]) -> Result<(), Refusal>
    requires { CanRead body.now runoff.old × (first ≤ 12) }
    ensures { refusal_of result ≡ first_over (drop first (sheets_in (length runoff.old) body.now)) }
{
    for k in first..MONTHS {
        judge_sheet(body, k, runoff)?;
    }
    Ok(())
}
