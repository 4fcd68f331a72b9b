// The split of a return over the twelve months of a delay pattern.
ghost use Rattle.std.specs.Prelude.{List, ◌≡◌, ℕ, ◌+◌, ◌*◌, ◌/◌, ◌≤◌, ◌<◌, length};
ghost use Rattle.rules.specs.Accepted.{most_amount};
ghost use Rattle.places.specs.Board.{dues_of};
ghost use Rattle.returns.specs.Dues.{Sums, CanSplit, SplitUp};

use places::board::{MONTHS_DUE, dues_of};

// What of an amount is in the river at once, and what goes deep.
#[derive(Clone, Copy)]
pub struct SplitPart {
    pub at_once: u64,
    pub deep: u64,
}

// So much of an amount, in percent, rounded down. Where the product is below 2^32 a product and a shift do for the division by 100:
// 1374389535 × 100 is 2^37 + 28, and the 28 do not tell there. Amounts are mostly so small, and a return is split into many shares.
pub fn percent_of(a: u64, c: u64) -> u64
    requires { (a ≤ most_amount) × (c ≤ 100) }
    ensures { result ≡ a * c / 100 }
{
    if a < 42949673 {
        return a * 1374389535 * c / 137438953472;
    }
    a * c / 100
}

// Splits a by the running sums of a pattern. The shares of months 1 to 11 are added to the dues of a row, up to the pattern's last month: the
// sums no longer rise from there on. What is left of a then goes deep. The dues are a slice, of eleven at least: as an array they would be a
// loan within the loan of the board's part, and the proof that both are put back did not close.
#[tactic(auto, using(crate::proofs::Shares::sums_most, crate::proofs::Shares::floors_rise, crate::proofs::Shares::floor_le))]
pub fn split_months(sums: &[u8; 12], a: u64, dues: &mut [u64]) -> SplitPart
    requires { (MONTHS_DUE ≤ length dues.old) × CanSplit sums.now a dues.old }
    ensures { (pattern : List ℕ) → Sums pattern sums.now → SplitUp pattern a 0 dues.old dues.new result }
{
    let whole = sums[11];
    let at_once = percent_of(a, u64::from(sums[0]));
    let mut before = at_once;
    for (k, due) in dues[..MONTHS_DUE].iter_mut().enumerate() {
        if sums[k] == whole {
            break;
        }
        let next = percent_of(a, u64::from(sums[k + 1]));
        *due += next - before;
        before = next;
    }
    SplitPart {
        at_once,
        deep: a - before,
    }
}

// The same to the dues of a row, the part of the board that is theirs. Where nothing returns there is nothing to do. The board is any list that is
// long enough, as it was: an array of 1226 would ask more of a caller.
pub fn split(sums: &[u8; 12], a: u64, row: usize, board: &mut [u64]) -> SplitPart
    requires { (row < 64) × (dues_of row + MONTHS_DUE ≤ length board.old) × CanSplit sums.now a board.old }
    ensures { (pattern : List ℕ) → Sums pattern sums.now → SplitUp pattern a (dues_of row) board.old board.new result }
{
    if a == 0 {
        return SplitPart {
            at_once: 0,
            deep: 0,
        };
    }
    let from = dues_of(row);
    split_months(sums, a, &mut board[from..from + MONTHS_DUE])
}
