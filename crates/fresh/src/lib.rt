// The fresh board of a basin.
#![tactic(auto)]

ghost use Rattle.std.specs.Prelude.{◌≡◌, ◌≤◌};
ghost use Rattle.records.specs.Records.{reservoir_count};
ghost use Rattle.answers.specs.Answers.{verdict_answer};
ghost use Rattle.fresh.specs.Fresh.{fresh_of, fresh_told, Started};

use filecheck::check::check;
use places::board::{BOARD_LENGTH, storage_place};
use records::bodies::Bodies;
use records::reservoirs::reservoir_at;
use rules::Refusal;

// The starting storage of each reservoir. They stand together on the board, in the order of the records.
fn store_starts(reservoirs: &[u8], board: &mut [u64; BOARD_LENGTH])
    requires { reservoir_count reservoirs.now ≤ 8 }
    ensures { Started reservoirs.now (reservoir_count reservoirs.now) board.old board.new }
{
    let n = reservoirs.len() / 68;
    let first = storage_place(0);
    for (v, place) in board[first..first + n].iter_mut().enumerate() {
        *place = u64::from(reservoir_at(reservoirs, v).start);
    }
}

// All that is refused is refused before the first store.
pub fn fresh(file: &[u8], board: &mut [u64]) -> Result<(), Refusal>
    ensures { fresh_told (verdict_answer result) board.new ≡ fresh_of file.now board.old }
{
    check(file)?;
    let Some(board) = board.as_mut_array::<BOARD_LENGTH>() else {
        return Err(Refusal::Lists);
    };
    board.fill(0);
    store_starts(Bodies::of(file).reservoirs, board);
    Ok(())
}
