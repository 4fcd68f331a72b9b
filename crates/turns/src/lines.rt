// All rights of a month in list order, each with its line in the report.
ghost use Rattle.std.specs.Prelude.{◌≡◌, ◌+◌, ◌<◌, length};
ghost use Rattle.places.specs.Report.{station_place};
ghost use Rattle.rules.specs.Basin.{Basin};
ghost use Rattle.river.specs.Setting.{Describes};
ghost use Rattle.records.specs.Records.{rows_of, reservoir_count};
ghost use Rattle.turns.specs.Lines.{reservoir_station, CanName, line_of, CanLine, LineServed, CanServe, Served};
ghost use Rattle.grants.specs.Stages.{home_row};
ghost use Rattle.turns.specs.State.{named_by};

use crate::serve::{Turn, serve_right};
use grants::grants::{Grant, Reason};
use places::board::BOARD_LENGTH;
use places::report::{FROM_STORAGE, REASON, STATION, line_place};
use records::reservoirs::reservoir_at;
use records::rights::{RightRecord, right_at};
use records::stations::station_at;
use river::River;
use river::setting::Setting;

// The station of a right's reservoir.
#[tactic(auto, using(grants::proofs::Looks::number_is))]
fn reservoir_station(setting: &Setting, right: RightRecord) -> u64
    requires { let w = setting.now.bodies.now in (right.reservoir < reservoir_count w.reservoirs.now) × (home_row w.reservoirs.now right.reservoir < rows_of w.stations.now) }
    ensures { let w = setting.now.bodies.now in result ≡ reservoir_station w.stations.now w.reservoirs.now right.reservoir }
{
    let reservoir = reservoir_at(setting.bodies.reservoirs, usize::from(right.reservoir));
    let station = station_at(setting.bodies.stations, usize::from(reservoir.row));
    u64::from(station.number)
}

// The station that a reason names; that of the right's reservoir where its storage gave out.
#[tactic(auto, unfolding(crate::specs::State::named_by, grants::specs::Grants::why_of))]
fn name(setting: &Setting, right: RightRecord, reason: Reason) -> u64
    requires { let w = setting.now.bodies.now in CanName w.stations.now w.reservoirs.now right.reservoir reason }
    ensures { let w = setting.now.bodies.now in result ≡ named_by (reservoir_station w.stations.now w.reservoirs.now right.reservoir) reason }
{
    match reason {
        Reason::Met => 0,
        Reason::Called(s) => u64::from(s),
        Reason::RiverLow(s) => u64::from(s),
        Reason::StorageOut => reservoir_station(setting, right),
    }
}

// The line of right i.
#[tactic(auto, unfolding(crate::specs::Lines::line_of))]
fn put_line(report: &mut [u64], i: usize, grant: Grant, station: u64)
    requires { (i < 256) × (station_place i < length report.old) }
    ensures { report.new ≡ line_of report.old i grant station }
{
    let reason = u64::from(grant.reason);
    let line = line_place(i);
    report[line] = grant.from_river;
    report[line + FROM_STORAGE] = grant.from_storage;
    report[line + REASON] = reason;
    report[line + STATION] = station;
}

// A turn with its line in the report. Answers what of it goes deep.
fn serve_line(
    setting: &Setting,
    turn: Turn,
    river: &mut River,
    short: &mut [bool; 64],
    board: &mut [u64; BOARD_LENGTH],
    report: &mut [u64],
) -> u64
    requires { CanLine setting.now turn.right turn.month river.old.flow river.old.available board.old report.old }
    ensures { (b : Basin) → Describes setting.now b → LineServed b setting.now.bodies.now.rights.now turn.right turn.month river.old.flow river.old.available short.old board.old report.old river.new.flow river.new.available short.new board.new report.new result }
{
    let i = turn.right;
    let right = right_at(setting.bodies.rights, i);
    let grant = serve_right(setting, turn, river, short, board);
    let station = name(setting, right, grant.reason);
    put_line(report, i, grant, station);
    grant.deep
}

// All rights in list order, by index: a right is its record and its line of the report, each by its place. Answers what goes deep of all.
pub fn serve_all(
    setting: &Setting,
    m: usize,
    river: &mut River,
    short: &mut [bool; 64],
    board: &mut [u64; BOARD_LENGTH],
    report: &mut [u64],
) -> u64
    requires { CanServe setting.now m river.old.flow river.old.available board.old report.old }
    ensures { (b : Basin) → Describes setting.now b → Served b m river.old.flow river.old.available short.old board.old report.old river.new.flow river.new.available short.new board.new report.new result }
{
    let n = setting.bodies.right_count();
    let mut deep: u64 = 0;
    for i in 0..n {
        let turn = Turn { right: i, month: m };
        deep += serve_line(setting, turn, river, short, board, report);
    }
    deep
}
