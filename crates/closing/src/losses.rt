// Evaporation at the end of a month. A reservoir is told by its body and its place there (`records`).
ghost use Rattle.std.specs.Prelude.{◌≡◌, ◌+◌, ◌≤◌, ◌<◌};
ghost use Rattle.records.specs.Records.{reservoir_count, survey_of, reservoir_of};
ghost use Rattle.rules.specs.Month.{towards, on_line, area_at};
ghost use Rattle.closing.specs.Losses.{OnLine, loss_in, CanEvaporate, Lost};

use places::board::{BOARD_LENGTH, storage_place};
use records::reservoirs::{area_at, content_at, depth_at};

// From a towards b, n of d equal steps along.
fn towards(a: u64, b: u64, n: u64, d: u64) -> u64
    requires { (a < 4294967296) × (b < 4294967296) × (n < d) × (d < 4294967296) }
    ensures { (result ≡ towards a b n d) × (result < 4294967296) }
{
    if a <= b {
        return a + (b - a) * n / d;
    }
    a - (a - b) * n / d
}

// The area between pair k and the next, whose storages are `low` and `high`.
fn on_line(reservoirs: &[u8], v: usize, k: usize, low: u64, high: u64, storage: u64) -> u64
    requires { OnLine reservoirs.now v k low high storage }
    ensures { (result ≡ on_line (survey_of reservoirs.now v k) (survey_of reservoirs.now v (k + 1)) storage) × (result < 4294967296) }
{
    let from = u64::from(area_at(reservoirs, v, k));
    let to = u64::from(area_at(reservoirs, v, k + 1));
    towards(from, to, storage - low, high - low)
}

// The area at a storage: on the line between two pairs, and from the last pair on the last area. The pairs are counted: a line has two of them, and
// each is read off the record by its number.
fn lake_area(reservoirs: &[u8], v: usize, storage: u64) -> u64
    requires { v < reservoir_count reservoirs.now }
    ensures { (result ≡ area_at (reservoir_of reservoirs.now v) storage) × (result < 4294967296) }
{
    let mut low = u64::from(content_at(reservoirs, v, 0));
    if storage < low {
        return 0;
    }
    for k in 0..3 {
        let high = u64::from(content_at(reservoirs, v, k + 1));
        if storage < high {
            return on_line(reservoirs, v, k, low, high, storage);
        }
        low = high;
    }
    u64::from(area_at(reservoirs, v, 3))
}

// What reservoir v loses in month m, at most what it holds.
fn loss(reservoirs: &[u8], m: usize, v: usize, storage: u64) -> u64
    requires { (v < reservoir_count reservoirs.now) × (m < 12) }
    ensures { (result ≡ loss_in reservoirs.now m v storage) × (result ≤ storage) }
{
    let area = lake_area(reservoirs, v, storage);
    let depth = u64::from(depth_at(reservoirs, v, m));
    storage.min(area * depth)
}

// Step 4: each reservoir loses its evaporation, which is told at its place of `losses`.
pub fn evaporate(reservoirs: &[u8], m: usize, board: &mut [u64; BOARD_LENGTH], losses: &mut [u64])
    requires { CanEvaporate reservoirs.now m losses.old }
    ensures { Lost reservoirs.now m (reservoir_count reservoirs.now) board.old losses.old 0 board.new losses.new }
{
    let n = reservoirs.len() / 68;
    for (v, lost) in losses[..n].iter_mut().enumerate() {
        let place = storage_place(v);
        let held = board[place];
        *lost = loss(reservoirs, m, v, held);
        board[place] = held - *lost;
    }
}
