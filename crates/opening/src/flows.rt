// The river before the first right.
ghost use Rattle.std.specs.Prelude.{length};
ghost use Rattle.opening.specs.Opening.{CanSend, Sent, CanGather, Gathered};

use places::board::{BOARD_LENGTH, due_place};
use records::network::RowsBelow;
use river::River;

// At a row where d enters: its flow is d and all that has come down to it, and goes on to the row below. Available flow starts equal to
// flow.
#[tactic(auto, unfolding(records::specs::Table::step_of))]
fn send_down(below: &RowsBelow, river: &mut River, row: usize, d: u64)
    requires { CanSend row d river.old.flow river.old.available }
    ensures { Sent below.now.rows row d river.old.flow river.old.available river.new.flow river.new.available }
{
    let x = river.flow[row] + d;
    river.flow[row] = x;
    river.available[row] = x;
    if let Some(next) = below.next(row) {
        river.flow[next] += x;
    }
}

// What enters at each row of the sheet, runoff and the returns that arrive, flows down its path. A row below is a later row, so that one
// step from each row, first row first, is enough.
pub fn gather(below: &RowsBelow, runoff: &[u32], board: &[u64; BOARD_LENGTH], river: &mut River)
    requires { CanGather below.now.rows runoff.now board.now river.old.flow river.old.available }
    ensures { Gathered below.now.rows runoff.now board.now (length runoff.now) river.new.flow river.new.available }
{
    for (row, &water) in runoff.iter().enumerate() {
        let d = u64::from(water) + board[due_place(row, 0)];
        send_down(below, river, row, d);
    }
}
