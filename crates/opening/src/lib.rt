// Steps 1 and 2 of a month: the river and the board before the first right.
#![tactic(auto)]

ghost use Rattle.std.specs.Prelude.{◌≡◌, eqb, length};
ghost use Rattle.places.specs.Board.{month_at};
ghost use Rattle.opening.specs.Opening.{CanGather, Gathered, CanOpen, opened_board};

use crate::board::open_board;
use crate::flows::gather;
use places::board::{BOARD_LENGTH, MONTH};
use records::network::RowsBelow;
use river::River;

pub mod board;
pub mod flows;

// What arrives is read off the board before the board is opened.
pub fn begin(below: &RowsBelow, runoff: &[u32], river: &mut River, board: &mut [u64; BOARD_LENGTH])
    requires { CanGather below.now.rows runoff.now board.old river.old.flow river.old.available × CanOpen (length runoff.now) board.old }
    ensures { Gathered below.now.rows runoff.now board.old (length runoff.now) river.new.flow river.new.available × (board.new ≡ opened_board board.old (eqb (month_at board.old) 0)) }
{
    gather(below, runoff, board, river);
    let october = board[MONTH] == 0;
    open_board(board, october, runoff.len());
}
