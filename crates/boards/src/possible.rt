// Whether a board is possible in a basin. Counts come as numbers, each with its bound, where a function needs one of them and a `Shape` has three. No
// loop leaves early: that costs more than it saves, since most boards are good.
ghost use Rattle.std.specs.Prelude.{◌≡◌, List, ℕ, suc, ◌-◌, ◌≤◌, ◌<◌, ◌^◌, ltb, length};
ghost use Rattle.general.specs.Tests.{all_to};
ghost use Rattle.rules.specs.Theorems.{most_due};
ghost use Rattle.records.specs.Records.{right_count, bodies as basin_by};
ghost use Rattle.records.specs.Bodies.{basin_in};
ghost use Rattle.places.specs.Board.{board_length};
ghost use Rattle.boards.specs.Board.{possible, judged};
ghost use Rattle.boards.specs.Bodies.{storage_most, taken_most, storages_ok, held_ok, taken_ok, row_ok, dues_ok, words_ok, have_bits, Counted};

use numbers::bytes::le32;
use numbers::{all_below, power};
use places::board::{
    BOARD_LENGTH, DUES, MARKS, MONTH, MONTHS_DUE, WORDS, due_place, dues_of, storage_place,
    taken_place, word_place,
};
use records::bodies::Bodies;
use rules::Refusal;

// The capacity of a reservoir, or 0 where there is none: the place of a reservoir that is not there holds 0. No `Option`, since the test that it is
// made for would put 0 for none at once.
fn storage_most(reservoirs: &[u8], v: usize) -> u64
    ensures { result ≡ storage_most reservoirs.now v }
{
    if reservoirs.len() / 68 <= v {
        return 0;
    }
    u64::from(le32(reservoirs, 68 * v + 4))
}

#[tactic(auto, unfolding(crate::specs::Bodies::storages_ok))]
fn storages_ok(reservoirs: &[u8], board: &[u64; BOARD_LENGTH]) -> bool
    ensures { result ≡ storages_ok reservoirs.now board.now }
{
    all_below(
        8,
        |v| board[storage_place(v)] <= storage_most(reservoirs, v),
    )
}

// The yearly limit of a right, or 0 where there is none, as of a reservoir. Of a record both read only the four bytes that they need; one function for
// both would take a record's size and a place in it, and a definition more.
fn taken_most(rights: &[u8], i: usize) -> u64
    ensures { result ≡ taken_most rights.now i }
{
    if rights.len() / 76 <= i {
        return 0;
    }
    u64::from(le32(rights, 76 * i + 16))
}

// Each right within its limit.
#[tactic(auto, unfolding(crate::specs::Bodies::held_ok))]
fn held_ok(rights: &[u8], board: &[u64; BOARD_LENGTH]) -> bool
    requires { right_count rights.now ≤ 256 }
    ensures { result ≡ held_ok rights.now board.now }
{
    all_below(rights.len() / 76, |i| {
        board[taken_place(i)] <= taken_most(rights, i)
    })
}

// All numbers from one place to another joined by `or`: they have k bits if each of them has. No number is looked at by itself, since a small
// basin's board is mostly places that it does not use; and the loop walks from the beginning and from the middle at once, which halves its
// turns. The middle one of an odd number is joined twice. With `|=`, which joins the two of a turn first, the proof did not close.
fn joined(board: &[u64; BOARD_LENGTH], from: usize, to: usize) -> u64
    requires { (from ≤ to) × (to ≤ board_length) }
    ensures { (k : ℕ) → ltb result (2 ^ k) ≡ have_bits k board.now from (to - from) }
{
    let half = (to - from + 1) / 2;
    let later = &board[to - half..to];
    let mut all: u64 = 0;
    for (&x, &y) in board[from..from + half].iter().zip(later) {
        all = all | x | y;
    }
    all
}

// Each right within its limit; zeros past them.
fn taken_ok(rights: &[u8], board: &[u64; BOARD_LENGTH]) -> bool
    requires { right_count rights.now ≤ 256 }
    ensures { result ≡ taken_ok rights.now board.now }
{
    let unused = joined(board, taken_place(rights.len() / 76), DUES);
    held_ok(rights, board) & (unused < 1)
}

// What can be due k months after next month: what 11 - k past months have sent. A cast, here and below, since std has no `From` for `usize` to `u64`.
fn due_most(k: usize) -> u64
    requires { k < 11 }
    ensures { result ≡ most_due (suc k) }
{
    (11 - k as u64) * 256000000000
}

#[tactic(auto, unfolding(crate::specs::Bodies::row_ok))]
fn row_ok(board: &[u64; BOARD_LENGTH], w: usize) -> bool
    requires { w < 64 }
    ensures { result ≡ row_ok board.now w }
{
    all_below(MONTHS_DUE, |k| board[due_place(w, k)] <= due_most(k))
}

fn each_row_ok(n: usize, board: &[u64; BOARD_LENGTH]) -> bool
    requires { n ≤ 64 }
    ensures { result ≡ all_to n (row_ok board.now) }
{
    all_below(n, |w| row_ok(board, w))
}

// No due of 37 bits is too large, so that a board is seldom looked at row by row.
fn rows_ok(n: usize, board: &[u64; BOARD_LENGTH]) -> bool
    requires { n ≤ 64 }
    ensures { result ≡ all_to n (row_ok board.now) }
{
    if joined(board, DUES, dues_of(n)) < 137438953472 {
        return true;
    }
    each_row_ok(n, board)
}

// At each of the n rows no more than can be due; zeros past them.
fn dues_ok(n: usize, board: &[u64; BOARD_LENGTH]) -> bool
    requires { n ≤ 64 }
    ensures { result ≡ dues_ok n board.now }
{
    let unused = joined(board, dues_of(n), WORDS);
    rows_ok(n, board) & (unused < 1)
}

// Twelve bits for each of the n rights; zeros past them.
fn words_ok(n: usize, board: &[u64; BOARD_LENGTH]) -> bool
    requires { n ≤ 256 }
    ensures { result ≡ words_ok n board.now }
{
    let end = word_place(n);
    let used = joined(board, WORDS, end);
    let unused = joined(board, end, BOARD_LENGTH);
    (used < 4096) & (unused < 1)
}

// A possible board: a month of the year, no storage above capacity, no mark without a reservoir, no right above its limit, no due above what
// eleven months can send, no short month past the twelfth; zeros where there is no reservoir, right or row. The patterns have no say.
pub fn is_possible(bodies: &Bodies<'_>, board: &[u64; BOARD_LENGTH]) -> bool
    requires { Counted bodies.now }
    ensures { let b = bodies.now in (ps : List ℕ) → result ≡ possible (basin_by b.stations.now b.reservoirs.now ps b.rights.now) board.now }
{
    (board[MONTH] < 12)
        & storages_ok(bodies.reservoirs, board)
        & (board[MARKS] < power(bodies.reservoir_count() as u64))
        & taken_ok(bodies.rights, board)
        & dues_ok(bodies.rows(), board)
        & words_ok(bodies.right_count(), board)
}

// What is turned down beside an accepted file: first lists that do not have their lengths, which the caller tells, then a board that is not possible.
pub fn judge(fits: bool, bodies: &Bodies<'_>, board: &[u64; BOARD_LENGTH]) -> Result<(), Refusal>
    requires { Counted bodies.now }
    ensures { result ≡ judged fits (possible (basin_in bodies.now) board.now) }
{
    if !fits {
        return Err(Refusal::Lists);
    }
    if !is_possible(bodies, board) {
        return Err(Refusal::Board);
    }
    Ok(())
}
