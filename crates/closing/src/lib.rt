// Steps 4 and 5 of a month: who was short, the rows as the last right left them, the evaporation, what went deep, the next month.
#![tactic(auto)]

ghost use Rattle.std.specs.Prelude.{◌≡◌, ◌<◌};
ghost use Rattle.rules.specs.Month.{next_month};
ghost use Rattle.records.specs.Records.{rows_of, right_count};
ghost use Rattle.closing.specs.Closing.{CanTell, RowsTold, CanEnd, Ended};

use crate::losses::evaporate;
use crate::noting::note_shorts;
use places::board::{BOARD_LENGTH, MONTH};
use places::report::{AVAILABLE, Shape};
use records::bodies::Bodies;
use river::River;

pub mod losses;
pub mod noting;

// Flow and available flow of the rows, after the lines of the rights. The rows are counted: by the pairs of the report's part (`chunks_exact_mut`)
// the proof did not close, since it was told nothing of what a part that is lent pair by pair was left as.
fn put_rows(shape: Shape, river: &River, report: &mut [u64])
    requires { CanTell shape.rights shape.rows report.old }
    ensures { RowsTold shape.rights shape.rows river.now.flow river.now.available report.old report.new }
{
    for w in 0..shape.rows {
        let at = shape.flow_place(w);
        report[at] = river.flow[w];
        report[at + AVAILABLE] = river.available[w];
    }
}

// After September comes October.
#[tactic(auto, unfolding(rules::specs::Month::next_month))]
fn next_month(m: u64) -> u64
    requires { m < 12 }
    ensures { result ≡ next_month m }
{
    if m == 11 {
        return 0;
    }
    m + 1
}

// The end of a month, of whose returns so much went deep. Answers how many rights are short. The board has the month in 64 bits, and a record's depths
// go by it: a cast, since std has no `From` for `u64` to `usize`.
pub fn end(
    bodies: &Bodies<'_>,
    river: &River,
    deep: u64,
    board: &mut [u64; BOARD_LENGTH],
    report: &mut [u64],
) -> usize
    requires { let b = bodies.now in CanEnd b.reservoirs.now (right_count b.rights.now) (rows_of b.stations.now) board.old report.old }
    ensures { let b = bodies.now in Ended b.reservoirs.now (right_count b.rights.now) (rows_of b.stations.now) river.now.flow river.now.available deep board.old report.old board.new report.new result }
{
    let m = board[MONTH];
    let shape = bodies.shape();
    let shorts = note_shorts(shape.rights, m, board, report);
    put_rows(shape, river, report);
    let losses = &mut report[shape.rows_end()..shape.deep_place()];
    evaporate(bodies.reservoirs, m as usize, board, losses);
    report[shape.deep_place()] = deep;
    board[MONTH] = next_month(m);
    shorts
}
