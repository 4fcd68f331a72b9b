// What a board tells: its stock, which is all water stored and all water on its way back; and the short months of a right.
#![tactic(auto)]

ghost use Rattle.std.specs.Prelude.{◌≡◌, IfOk, Some};
ghost use Rattle.answers.specs.Answers.{refusal_of};
ghost use Rattle.stock.specs.Stock.{stock_refusal, stock_of, totals_told, stock_told, stock_text};

use answers::Answer;
use boards::possible::is_possible;
use boards::sums::{due_sum, storage_sum};
use filecheck::check::check;
use places::board::BOARD_LENGTH;
use records::bodies::Bodies;
use rules::Refusal;
use std::fmt;

pub mod months;

// The sums of a board.
#[derive(Clone, Copy)]
pub struct Totals {
    pub storage: u64,
    pub due: u64,
}

// An answer with the sums of a board, as C and the programs that print have it; they are 0 where the board is refused.
#[repr(C)]
#[derive(Clone, Copy)]
pub struct Sums {
    pub number: u64,
    pub place: u64,
    pub storage: u64,
    pub due: u64,
}

// As the programs print it.
impl fmt::Display for Sums {
    ghost output = { λ s. Some (stock_text s) };

    fn fmt<W: fmt::Write>(&self, f: &mut fmt::Formatter<W>) -> fmt::Result {
        let Sums {
            number,
            place,
            storage,
            due,
        } = *self;
        write!(f, "{number} {place} {storage} {due}")
    }
}

impl From<Result<Totals, Refusal>> for Sums {
    ghost from_gives = { λ r s. stock_told s ≡ totals_told r };

    fn from(totals: Result<Totals, Refusal>) -> Sums {
        let Answer { number, place } = Answer::from(totals.map(|_| ()));
        let Totals { storage, due } = totals.unwrap_or(Totals { storage: 0, due: 0 });
        Sums {
            number,
            place,
            storage,
            due,
        }
    }
}

// What is turned down of a file and a board; a board that is not turned down, as an array of its places. The board is the only list, so that of
// `boards::possible::judge` one test alone would be left. Within its two calls it needs no frame of its own on the stack.
#[inline(always)]
fn judge_board<'a>(file: &[u8], board: &'a [u64]) -> Result<&'a [u64; BOARD_LENGTH], Refusal>
    ensures refused { refusal_of result ≡ stock_refusal file.now board.now }
    ensures same { IfOk result (λ b. b.now ≡ board.now) }
{
    check(file)?;
    let Some(board) = board.as_array::<BOARD_LENGTH>() else {
        return Err(Refusal::Lists);
    };
    if !is_possible(&Bodies::of(file), board) {
        return Err(Refusal::Board);
    }
    Ok(board)
}

// Nothing is summed of a board that is refused.
pub fn stock(file: &[u8], board: &[u64]) -> Result<Totals, Refusal>
    ensures { totals_told result ≡ stock_of file.now board.now }
{
    let board = judge_board(file, board)?;
    let bodies = Bodies::of(file);
    Ok(Totals {
        storage: storage_sum(bodies.reservoir_count(), board),
        due: due_sum(bodies.rows(), board),
    })
}
