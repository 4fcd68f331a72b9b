// The check of the body of stations.
ghost use Rattle.std.specs.Prelude.{◌≡◌, ◌+◌, ◌≤◌, ◌<◌, replicate};
ghost use Rattle.records.specs.Records.{rows_of};
ghost use Rattle.records.specs.Table.{TableFor};
ghost use Rattle.filerules.specs.FileRules.{station_ok};
ghost use Rattle.filecheck.specs.Check.{stations_verdict, only_if};

use filerules::stations::plain_ok;
use records::network::{RowsBelow, row_below};
use records::stations::station_at;
use rules::Refusal;

// The last row has nowhere to go on to, and its own order is asked instead.
#[tactic(auto, using(general::proofs::Tests::joins, filerules::proofs::RowRules::last_row_lem), unfolding(crate::specs::Check::only_if))]
fn check_last(stations: &[u8], last: usize) -> Result<(), Refusal>
    requires { last + 1 ≡ rows_of stations.now }
    ensures { result ≡ only_if (station_ok stations.now last) (Refusal.Station last) }
{
    let x = station_at(stations, last);
    if plain_ok(stations, last) & (x.order == 1) {
        return Ok(());
    }
    Err(Refusal::Station(last))
}

// The first row at fault. A row above the last has to find a row to go on to; what it finds goes into the table, by which the rights' rules
// walk down the river, and at the first row that finds none the check ends. So the table is made here too, and not by `look_up`, which
// would search for each row below once more. The rows are counted: a row's number is its place in the table and its refusal's. The last row's place
// keeps the number that stands for none. The table is lent, so that it stands in memory once.
pub fn check_stations(stations: &[u8], below: &mut RowsBelow) -> Result<(), Refusal>
    requires { (0 < rows_of stations.now) × (rows_of stations.now ≤ 64) × (below.old.rows ≡ replicate 64 255) }
    ensures value { result ≡ stations_verdict stations.now }
    ensures table_for { result ≡ Ok tt → TableFor stations.now below.new.rows }
{
    let last = stations.len() / 8 - 1;
    for row in 0..last {
        if !plain_ok(stations, row) {
            return Err(Refusal::Station(row));
        }
        let Some(next) = row_below(stations, row) else {
            return Err(Refusal::Station(row));
        };
        below.lead(row, next);
    }
    check_last(stations, last)
}
