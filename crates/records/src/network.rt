// The river's network, read off the body of stations: the row below a row, the table of all rows below, and the path of a row.
// What makes the table asks that the rows are at most 64, here and in the check of stations: the layout says so of a file, and no type
// of a body alone could, which has any length until it is judged. That each row below is a later row the table keeps as a ghost field,
// so that no walk has to ask it; that a row is below 64 each asks, as the places of a board ask of their numbers.
ghost use Rattle.std.specs.Prelude.{◌≡◌, ◌≤◌, ◌<◌, replicate, set};
ghost use Rattle.general.specs.Tests.{has};
ghost use Rattle.rules.specs.Path.{row_below};
ghost use Rattle.records.specs.Records.{rows_of, stations_of};
ghost use Rattle.records.specs.Network.{order_at};
ghost use Rattle.records.specs.Table.{below_code, table_of, step_of, path_by, Downhill};

use crate::stations::station_at;

// Widened, so that one more than an order does not wrap.
fn order_at(stations: &[u8], row: usize) -> usize
    requires { row < rows_of stations.now }
    ensures { (result ≡ order_at stations.now row) × (result < 256) }
{
    usize::from(station_at(stations, row).order)
}

// The next station downstream, where there is one: the river goes on at the next row of the same order, or of one less.
pub fn row_below(stations: &[u8], row: usize) -> Option<usize>
    requires { row < rows_of stations.now }
    ensures { result ≡ row_below (stations_of stations.now) row }
{
    let order = order_at(stations, row);
    (row + 1..stations.len() / 8).find(|&later| {
        let x = order_at(stations, later);
        (x == order) | (x + 1 == order)
    })
}

// The number that stands for a row below in the table: a row's own, which fits since there are at most 64, and 255 for none, so that a row takes
// one byte. A list of numbers and no rows that own the rows below them: there is no heap.
#[tactic(auto, using(crate::proofs::Table::code_row, crate::proofs::Rows::rows_are), unfolding(crate::specs::Table::below_code))]
fn code(stations: &[u8], row: usize) -> u8
    requires { (row < rows_of stations.now) × (rows_of stations.now ≤ 64) }
    ensures { result ≡ below_code (row_below (stations_of stations.now) row) }
{
    let Some(next) = row_below(stations, row) else {
        return 255;
    };
    next as u8
}

// The row below each row, looked up once for all walks; no row, past the last. The places are lent, so that they stand in memory once. Public by itself,
// as it was: it fills any 64 places, and `RowsBelow::look_up` is this for its own.
pub fn rows_below(stations: &[u8], below: &mut [u8; 64])
    requires { rows_of stations.now ≤ 64 }
    ensures { below.new ≡ table_of (stations_of stations.now) }
{
    below.fill(255);
    let n = stations.len() / 8;
    for (row, place) in below[..n].iter_mut().enumerate() {
        *place = code(stations, row);
    }
}

// The row below, by the places of a table, of whatever table: also of one that leads upward, as no `RowsBelow` does.
#[tactic(auto, unfolding(crate::specs::Table::step_of))]
pub fn next_row(below: &[u8; 64], row: usize) -> Option<usize>
    requires { row < 64 }
    ensures { result ≡ step_of below.now row }
{
    let next = usize::from(below[row]);
    (next < 64).then_some(next)
}

// The row below each row, which is a later row, so that every walk by it ends. A row takes one byte: 64 or more stands for none.
#[derive(Drop)]
pub struct RowsBelow {
    pub rows: [u8; 64],
    ghost downhill: { Downhill rows },
}

impl RowsBelow {
    // A table where no row has a row below.
    #[tactic(auto, using(crate::proofs::Table::none_downhill))]
    pub fn none() -> RowsBelow
        ensures { result.rows ≡ replicate 64 255 }
    {
        RowsBelow { rows: [255; 64] }
    }

    // The river goes on from a row at a later one, below 64, so that the cast loses nothing. It is for the check of stations, which finds the rows below
    // while it judges.
    pub fn lead(&mut self, row: usize, next: usize)
        requires { (row < next) × (next < 64) }
        ensures { self.new.rows ≡ set self.old.rows row next }
    {
        self.rows[row] = next as u8;
    }

    // The rows below of a body of stations.
    #[tactic(auto, using(crate::proofs::Table::for_downhill))]
    pub fn look_up(&mut self, stations: &[u8])
        requires { rows_of stations.now ≤ 64 }
        ensures { self.new.rows ≡ table_of (stations_of stations.now) }
    {
        rows_below(stations, &mut self.rows);
    }

    // The row below a row.
    pub fn next(&self, row: usize) -> Option<usize>
        requires { row < 64 }
        ensures { result ≡ step_of self.now.rows row }
    {
        next_row(&self.rows, row)
    }

    // Whether the target is on the row's path: it is the row itself, or on the path of the row below. All that it is given fits in registers,
    // so that the call at the end costs no more than a turn of a loop.
    #[tactic(auto, using(crate::proofs::Table::paths))]
    pub fn on_path(&self, row: usize, target: usize) -> bool
        requires { row < 64 }
        ensures { result ≡ has target (path_by self.now.rows row) }
    {
        if target == row {
            return true;
        }
        let Some(next) = self.next(row) else {
            return false;
        };
        self.on_path(next, target)
    }
}
