// The returns of a diversion.
ghost use Rattle.std.specs.Prelude.{◌<◌, [], get_or};
ghost use Rattle.rules.specs.River.{returned};
ghost use Rattle.records.specs.Table.{path_by};
ghost use Rattle.river.specs.Arrays.{CanReturn, Walked};
ghost use Rattle.returns.specs.Returning.{CanGive, GaveBy};

use crate::split::{percent_of, split};
use places::board::BOARD_LENGTH;
use records::network::RowsBelow;
use records::rights::{return_percent, return_row};
use river::River;
use river::setting::Setting;

// A share goes back to the river along the path of its row. A share of nothing is no work.
#[tactic(auto, using(crate::proofs::Points::put_nothing))]
fn give_share(below: &RowsBelow, river: &mut River, row: usize, share: u64)
    requires { CanReturn below.now.rows row share river.old.flow river.old.available }
    ensures { Walked (returned share) (path_by below.now.rows row) river.old.flow river.old.available river.new.flow river.new.available }
{
    if share == 0 {
        return;
    }
    river.put_back(below, row, share);
}

// What of a diversion returns: whose, over how many of its return points, by which pattern, and how much.
#[derive(Clone, Copy)]
pub struct Return {
    pub right: usize,
    pub points: usize,
    pub pattern: usize,
    pub amount: u64,
}

// At each point the share of this month goes back to the river along the point's path; later shares are added to the dues; what
// goes deep of each point's part is summed. The patterns are passed by value, a copy that those who return nothing do not pay for. The points
// go by number: each is read off the record by its number, as the definitions read it, and the percents add up from point to point.
fn give_points(
    setting: &Setting,
    patterns: [[u8; 12]; 16],
    back: Return,
    river: &mut River,
    board: &mut [u64; BOARD_LENGTH],
) -> u64
    requires { let s = setting.now in CanGive patterns s.bodies.now.rights.now back river.old.flow river.old.available board.old × (0 < back.points) }
    ensures { let s = setting.now in GaveBy s.below.now.rows (get_or patterns back.pattern []) s.bodies.now.rights.now back river.old.flow river.old.available board.old river.new.flow river.new.available board.new result }
{
    let below = setting.below;
    let rights = setting.bodies.rights;
    let i = back.right;
    let points = back.points;
    let which = back.pattern;
    let rest = back.amount;
    let sums = &patterns[which];
    let mut c: u64 = 0;
    let mut before: u64 = 0;
    let mut deep: u64 = 0;
    for k in 0..points {
        let p = u64::from(return_percent(rights, i, k));
        let next = percent_of(rest, c + p);
        let row = usize::from(return_row(rights, i, k));
        let part = split(sums, next - before, row, board);
        give_share(below, river, row, part.at_once);
        deep += part.deep;
        before = next;
        c += p;
    }
    deep
}

// What returns goes back at the right's points; answers what goes deep. A right without points names no pattern, and many a diversion is 0.
pub fn give_returns(
    setting: &Setting,
    back: Return,
    river: &mut River,
    board: &mut [u64; BOARD_LENGTH],
) -> u64
    requires { let s = setting.now in CanGive s.sums.now s.bodies.now.rights.now back river.old.flow river.old.available board.old }
    ensures { let s = setting.now in GaveBy s.below.now.rows (get_or s.sums.now back.pattern []) s.bodies.now.rights.now back river.old.flow river.old.available board.old river.new.flow river.new.available board.new result }
{
    if back.points == 0 {
        return 0;
    }
    if back.amount == 0 {
        return 0;
    }
    give_points(setting, *setting.sums, back, river, board)
}
