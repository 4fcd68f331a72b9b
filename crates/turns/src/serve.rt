// The turn of a right, from its demand to its grant.
ghost use Rattle.std.specs.Prelude.{◌≡◌};
ghost use Rattle.rules.specs.Basin.{Basin};
ghost use Rattle.river.specs.Setting.{Describes};
ghost use Rattle.turns.specs.Finish.{CanFinish, Finished, short_reason};
ghost use Rattle.turns.specs.State.{Ready, Turned};

use grants::grants::{Grant, Reason, river_part};
use grants::stages::{demand_of, draw, fill, take};
use places::board::BOARD_LENGTH;
use records::rights::{Kind, RightRecord, right_at};
use returns::returning::{Return, give_returns};
use river::River;
use river::setting::Setting;

// Whose turn it is, by the right's place in the list, and in which month of the year.
#[derive(Clone, Copy)]
pub struct Turn {
    pub right: usize,
    pub month: usize,
}

// What a right asked for, what of it the river and storage give, and the reason where that is short.
#[derive(Clone, Copy)]
pub struct Share {
    pub demand: u64,
    pub from_river: u64,
    pub from_storage: u64,
    pub reason: Reason,
}

// The reason of a short right: a project right's is its storage.
fn short_reason(kind: Kind, why: Reason) -> Reason
    ensures { result ≡ short_reason kind why }
{
    match kind {
        Kind::Project => Reason::StorageOut,
        Kind::Direct | Kind::Instream | Kind::Storage => why,
    }
}

// The last stage of a turn: the returns, the mark of a short row, the grant.
fn finish(
    setting: &Setting,
    i: usize,
    right: RightRecord,
    share: Share,
    river: &mut River,
    short: &mut [bool; 64],
    board: &mut [u64; BOARD_LENGTH],
) -> Grant
    requires { let s = setting.now in CanFinish s.sums.now s.bodies.now.rights.now i right share river.old.flow river.old.available board.old }
    ensures { let s = setting.now in Finished s.below.now.rows s.sums.now s.bodies.now.rights.now i right share river.old.flow river.old.available short.old board.old river.new.flow river.new.available short.new board.new result }
{
    let d = share.from_river + share.from_storage;
    let row = usize::from(right.row);
    let back = Return {
        right: i,
        points: usize::from(right.points),
        pattern: usize::from(right.pattern),
        amount: d - d * u64::from(right.efficiency) / 100,
    };
    let deep = give_returns(setting, back, river, board);
    let reason = if d < share.demand {
        short[row] = true;
        share.reason
    } else {
        Reason::Met
    };
    Grant {
        from_river: share.from_river,
        from_storage: share.from_storage,
        reason,
        deep,
    }
}

// The turn of a right.
pub fn serve_right(
    setting: &Setting,
    turn: Turn,
    river: &mut River,
    short: &mut [bool; 64],
    board: &mut [u64; BOARD_LENGTH],
) -> Grant
    requires { Ready setting.now turn.right turn.month river.old.flow river.old.available board.old }
    ensures { (b : Basin) → Describes setting.now b → Turned b setting.now.bodies.now.rights.now turn.right turn.month river.old.flow river.old.available short.old board.old river.new.flow river.new.available short.new board.new result }
{
    let i = turn.right;
    let right = right_at(setting.bodies.rights, i);
    let demand = demand_of(setting, i, right, turn.month, board);
    let seen = river_part(setting, river, short, right, demand);
    let part = seen.part;
    let why = short_reason(right.kind, seen.reason);
    take(setting, river, right, part);
    fill(setting, board, i, right, part);
    let stored = draw(setting, river, board, right, demand - part);
    let share = Share {
        demand,
        from_river: part,
        from_storage: stored,
        reason: why,
    };
    finish(setting, i, right, share, river, short, board)
}
