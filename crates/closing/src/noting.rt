// Who was short, at the end of a month.
ghost use Rattle.std.specs.Prelude.{◌≡◌};
ghost use Rattle.closing.specs.Noting.{reasons_in, CanNote, WordsNoted};

use numbers::put_bit;
use places::board::{BOARD_LENGTH, WORDS};
use places::report::{REASON, line_place};

// Month m is noted for each of n rights: short, where the report has a reason for it, or not. Answers how many are short.
// The words of the rights are a part of the board; the reason is one of the four numbers of a right's line in the report.
pub fn note_shorts(n: usize, m: u64, board: &mut [u64; BOARD_LENGTH], report: &[u64]) -> usize
    requires { CanNote n m board.old report.now }
    ensures { (result ≡ reasons_in n report.now) × WordsNoted m n report.now board.old board.new }
{
    let mut shorts = 0;
    for (i, word) in board[WORDS..WORDS + n].iter_mut().enumerate() {
        let short = report[line_place(i) + REASON] != 0;
        *word = put_bit(*word, m, short);
        shorts += usize::from(short);
    }
    shorts
}
