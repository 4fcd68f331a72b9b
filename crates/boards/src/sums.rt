// The sums of a board: all water stored, and all water on its way back. A count comes as a number with its bound, as in `possible`: of the bodies
// nothing else is read.
ghost use Rattle.std.specs.Prelude.{◌≡◌, suc, ◌≤◌, ◌<◌};
ghost use Rattle.general.specs.Sums.{sum_to};
ghost use Rattle.places.specs.Board.{storage_at, due_at};
ghost use Rattle.boards.specs.Bodies.{Bounded};

use places::board::{BOARD_LENGTH, DUES, dues_of, storage_place};

// A possible board stores at most eight full reservoirs, so the sum fits.
pub fn storage_sum(n: usize, board: &[u64; BOARD_LENGTH]) -> u64
    requires { (n ≤ 8) × Bounded board.now }
    ensures { result ≡ sum_to n (storage_at board.now) }
{
    let first = storage_place(0);
    board[first..first + n].iter().sum()
}

// The dues of a row stand one after the other, and the rows too.
pub fn due_sum(n: usize, board: &[u64; BOARD_LENGTH]) -> u64
    requires { (n ≤ 64) × Bounded board.now }
    ensures { result ≡ sum_to n (λ w. sum_to 11 (λ k. due_at board.now w (suc k))) }
{
    board[DUES..dues_of(n)].iter().sum()
}
