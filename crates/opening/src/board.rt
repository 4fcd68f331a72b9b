// The board before the first right. The rows come as a number with its bound: of the bodies nothing else is read.
ghost use Rattle.std.specs.Prelude.{◌≡◌, ◌≤◌, length};
ghost use Rattle.general.specs.Tables.{tab};
ghost use Rattle.places.specs.Board.{board_length};
ghost use Rattle.opening.specs.Opening.{CanOpen, cleared_at, moved_at, ended_at, opened_board};

use places::board::{BOARD_LENGTH, DUES, MARKS, MONTHS_DUE, WORDS, due_place, dues_of};

// In October marks, water taken and short words are cleared. Storages, before them, and dues, in between, stay. Whether it is October is asked here,
// as the definition asks it of each place.
fn clear_year(board: &mut [u64; BOARD_LENGTH], october: bool)
    ensures { board.new ≡ tab board_length (cleared_at board.old october) }
{
    if !october {
        return;
    }
    board[MARKS..DUES].fill(0);
    board[WORDS..BOARD_LENGTH].fill(0);
}

// The dues of n rows as one list, so that they move as one block. The last of a row takes the next row's first, until `clear_last`.
fn move_dues(board: &mut [u64; BOARD_LENGTH], n: usize)
    requires { n ≤ 64 }
    ensures { board.new ≡ tab board_length (moved_at board.old n) }
{
    if n > 0 {
        board.copy_within(DUES + 1..dues_of(n), DUES);
    }
}

// The last due of each row is 0. The rows are counted: with rows as parts of the board (`chunks_exact_mut`) the proof did not close, since it was
// not told what a part that is lent in a loop was left as.
fn clear_last(board: &mut [u64; BOARD_LENGTH], n: usize)
    requires { n ≤ 64 }
    ensures { board.new ≡ tab board_length (ended_at board.old n) }
{
    for w in 0..n {
        board[due_place(w, MONTHS_DUE - 1)] = 0;
    }
}

// Three plain steps, since one loop that asks at each place what is kept there costs a small basin more than its rights; and over the basin's own
// n rows, since a possible board has nothing due at any other, and moving those zeros too cost a small basin a quarter of its month.
pub fn open_board(board: &mut [u64; BOARD_LENGTH], october: bool, n: usize)
    requires { CanOpen n board.old }
    ensures { board.new ≡ opened_board board.old october }
{
    clear_year(board, october);
    move_dues(board, n);
    clear_last(board, n);
}
