// The short months of a right: in how many months of the present water year it was granted less than it asked for.
ghost use Rattle.std.specs.Prelude.{◌≡◌, Some};
ghost use Rattle.stock.specs.Months.{short_months_of, counted_told, months_told, months_text};

use crate::judge_board;
use answers::Answer;
use places::board::word_place;
use records::bodies::Bodies;
use rules::Refusal;
use std::fmt;

// An answer with a number of months, as C and the programs that print have it; it is 0 where the board is refused.
#[repr(C)]
#[derive(Clone, Copy)]
pub struct Months {
    pub number: u64,
    pub place: u64,
    pub months: u64,
}

// As the programs print it.
impl fmt::Display for Months {
    ghost output = { λ m. Some (months_text m) };

    fn fmt<W: fmt::Write>(&self, f: &mut fmt::Formatter<W>) -> fmt::Result {
        let Months {
            number,
            place,
            months,
        } = *self;
        write!(f, "{number} {place} {months}")
    }
}

impl From<Result<u32, Refusal>> for Months {
    ghost from_gives = { λ r m. months_told m ≡ counted_told r };

    fn from(counted: Result<u32, Refusal>) -> Months {
        let Answer { number, place } = Answer::from(counted.map(|_| ()));
        Months {
            number,
            place,
            months: u64::from(counted.unwrap_or(0)),
        }
    }
}

// A right is given by its place in the list. One that the basin lacks was never short.
pub fn short_months(file: &[u8], board: &[u64], right: usize) -> Result<u32, Refusal>
    ensures { counted_told result ≡ short_months_of file.now board.now right }
{
    let board = judge_board(file, board)?;
    if Bodies::of(file).right_count() <= right {
        return Ok(0);
    }
    let word = board[word_place(right)];
    Ok(word.count_ones())
}
