// What is lent for October's basin, of three stations, a reservoir and five rights.
ghost use Rattle.std.specs.Prelude.{◌≡◌, ◌∷◌, replicate};
ghost use Rattle.fresh.specs.Fresh.{fresh_of};

use fresh::fresh;
use places::board::{BOARD_LENGTH, MONTH};
use places::report::Shape;

pub const RIGHTS: usize = 5;

const ROWS: usize = 3;

const RESERVOIRS: usize = 1;

pub const SHAPE: Shape = Shape {
    rights: RIGHTS,
    rows: ROWS,
    reservoirs: RESERVOIRS,
};

// The worked October's sheet.
pub const SHEET: [u32; ROWS] = [2000, 700, 300];

// The numbers of a report, and of the twelve of a year. Both are lengths of arrays, so constants, and a constant can't call `SHAPE.report_end()`, which
// tells the same.
pub const REPORT: usize = 4 * RIGHTS + 2 * ROWS + RESERVOIRS + 1;

pub const YEAR_REPORTS: usize = 12 * REPORT;

// The fresh board; zeros where the file is refused, since that is told by the first call and shown by all later ones. Two lines, as `riverplan` has
// for the basin of its own. Here and below the board is lent: one that is answered would stand twice on the stack.
pub fn fresh_board(file: &[u8], board: &mut [u64; BOARD_LENGTH])
    ensures { board.new ≡ (fresh_of file.now (replicate 1226 0)).board }
{
    *board = [0; BOARD_LENGTH];
    let _ = fresh(file, board);
}

// A board that no run of months can leave: its next month is a thirteenth. `riverplan` makes one too, to save it: two lines each, and no crate of the
// engine has a use for such a board.
pub fn thirteenth(board: &mut [u64; BOARD_LENGTH])
    ensures { board.new ≡ 12 ∷ replicate 1225 0 }
{
    *board = [0; BOARD_LENGTH];
    board[MONTH] = 12;
}
