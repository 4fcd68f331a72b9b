// The stages of a right's turn: its demand, its part from the river, its part from storage. A right's place is lent beside its record only to the stages
// that read its amounts or its number on the board; `take` and `draw` need the record alone.
ghost use Rattle.std.specs.Prelude.{◌≡◌, not, ◌+◌, ◌<◌, min, length};
ghost use Rattle.general.specs.Sums.{only};
ghost use Rattle.places.specs.Board.{board_length};
ghost use Rattle.records.specs.Records.{right_count, right_record};
ghost use Rattle.grants.specs.Stages.{amount_in, ask_of, RoomLeft, ask_in, CanAsk, CanTake, Taken, capacity_in, poured, CanPour, board_stored, CanFill, CanDraw, Drawn};

use numbers::bytes::le32;
use numbers::{bit_of, power};
use places::board::{BOARD_LENGTH, MARKS, storage_place, taken_place};
use records::reservoirs::reservoir_at;
use records::rights::{Kind, RightRecord};
use river::River;
use river::setting::Setting;

// The amount of month m, if that month is in use. The amounts stand behind the part of a record that is read whole, and one is read when it
// is asked for. A bit goes by a number of 64 bits: a cast, here and below, since std has no `From` for `usize` to `u64`.
#[tactic(auto, unfolding(crate::specs::Stages::amount_in, records::specs::Records::amount_at))]
fn scheduled(rights: &[u8], i: usize, right: RightRecord, m: usize) -> u64
    requires { (i < right_count rights.now) × (m < 12) × (right ≡ right_record rights.now i) }
    ensures { result ≡ amount_in rights.now i m }
{
    if bit_of(u64::from(right.months), m as u64) {
        return u64::from(le32(rights, 76 * i + 20 + 4 * m));
    }
    0
}

// The least of the amount and of what yearly limit and capacity leave; nothing under a filled mark.
fn storage_demand(amount: u64, marked: bool, limit_left: u64, capacity_left: u64) -> u64
    ensures { result ≡ only (not marked) (min amount (min limit_left capacity_left)) }
{
    if marked {
        return 0;
    }
    amount.min(limit_left.min(capacity_left))
}

// What a storage right asks for, of an amount scheduled.
fn storage_ask(
    reservoirs: &[u8],
    i: usize,
    right: RightRecord,
    amount: u64,
    board: &[u64; BOARD_LENGTH],
) -> u64
    requires { (i < 256) × RoomLeft reservoirs.now right i board.now }
    ensures { result ≡ ask_of reservoirs.now right i amount board.now }
{
    let v = usize::from(right.reservoir);
    let reservoir = reservoir_at(reservoirs, v);
    let limit_left = u64::from(right.limit) - board[taken_place(i)];
    let capacity_left = u64::from(reservoir.capacity) - board[storage_place(v)];
    let marked = bit_of(board[MARKS], v as u64);
    storage_demand(amount, marked, limit_left, capacity_left)
}

// What right i asks for in month m.
#[tactic(auto, unfolding(crate::specs::Stages::ask_in))]
pub fn demand_of(
    setting: &Setting,
    i: usize,
    right: RightRecord,
    m: usize,
    board: &[u64; BOARD_LENGTH],
) -> u64
    requires { let w = setting.now.bodies.now in (right ≡ right_record w.rights.now i) × CanAsk w.reservoirs.now w.rights.now i m board.now }
    ensures { let w = setting.now.bodies.now in result ≡ ask_in right.kind w.reservoirs.now w.rights.now i m board.now }
{
    let amount = scheduled(setting.bodies.rights, i, right, m);
    let kind = right.kind;
    match kind {
        Kind::Direct | Kind::Project | Kind::Instream => amount,
        Kind::Storage => storage_ask(setting.bodies.reservoirs, i, right, amount, board),
    }
}

// The river part d leaves the river: an instream right's the available flow at its row alone, another's flow and available flow along the path. A part of nothing is no work.
#[tactic(auto, unfolding(crate::specs::Stages::levels_taken), using(crate::proofs::RightKinds::taken_nothing, crate::proofs::RightKinds::taken_instream))]
pub fn take(setting: &Setting, river: &mut River, right: RightRecord, d: u64)
    requires { CanTake right.kind setting.now.below.now.rows right.row d river.old.flow river.old.available }
    ensures { Taken right.kind setting.now.below.now.rows right.row d river.old.flow river.old.available river.new.flow river.new.available }
{
    if d == 0 {
        return;
    }
    let row = usize::from(right.row);
    if let Kind::Instream = right.kind {
        river.available[row] -= d;
        return;
    }
    river.divert(setting.below, row, d);
}

// d more in reservoir v, and in the water that right i has taken this year. What fills the reservoir with more than nothing sets its mark.
fn pour(reservoirs: &[u8], board: &mut [u64; BOARD_LENGTH], v: usize, i: usize, d: u64)
    requires { CanPour reservoirs.now v i d board.old }
    ensures { board.new ≡ poured (capacity_in reservoirs.now v) v i d board.old }
{
    let reservoir = reservoir_at(reservoirs, v);
    let storage = storage_place(v);
    let taken = taken_place(i);
    let held = board[storage] + d;
    let total = board[taken] + d;
    board[storage] = held;
    board[taken] = total;
    if d == 0 {
        return;
    }
    if held != u64::from(reservoir.capacity) {
        return;
    }
    board[MARKS] += power(v as u64);
}

// A storage right stores its part; for other kinds nothing happens.
#[tactic(auto, unfolding(crate::specs::Stages::board_stored))]
pub fn fill(
    setting: &Setting,
    board: &mut [u64; BOARD_LENGTH],
    i: usize,
    right: RightRecord,
    d: u64,
)
    requires { CanFill right.kind setting.now.bodies.now.reservoirs.now right.reservoir i d board.old }
    ensures { let v = right.reservoir in board.new ≡ board_stored right.kind (capacity_in setting.now.bodies.now.reservoirs.now v) v i d board.old }
{
    if let Kind::Storage = right.kind {
        let v = usize::from(right.reservoir);
        pour(setting.bodies.reservoirs, board, v, i, d);
    }
}

// What the river did not give a project right it draws from storage, at most all that is stored. Nothing drawn is no work. The release is
// flow at the reservoir's row and further down, but no longer at the right's.
#[tactic(auto, unfolding(crate::specs::Stages::drawn_in, crate::specs::Stages::board_drawn, crate::specs::Stages::levels_released))]
pub fn draw(
    setting: &Setting,
    river: &mut River,
    board: &mut [u64; BOARD_LENGTH],
    right: RightRecord,
    lacking: u64,
) -> u64
    requires { let s = setting.now in CanDraw right.kind s.below.now.rows s.bodies.now.reservoirs.now right.reservoir lacking river.old.flow board.old }
    ensures { let s = setting.now in Drawn right.kind s.below.now.rows s.bodies.now.reservoirs.now right.reservoir right.row lacking river.old.flow board.old river.new.flow board.new result × (river.new.available ≡ river.old.available) }
{
    let Kind::Project = right.kind else {
        return 0;
    };
    let v = usize::from(right.reservoir);
    let storage = storage_place(v);
    let held = board[storage];
    let x = lacking.min(held);
    if x == 0 {
        return 0;
    }
    board[storage] = held - x;
    let reservoir = reservoir_at(setting.bodies.reservoirs, v);
    let home = usize::from(reservoir.row);
    river.release(setting.below, home, usize::from(right.row), x);
    x
}
