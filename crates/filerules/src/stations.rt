// The rules of a station.
ghost use Rattle.std.specs.Prelude.{◌≡◌, ◌<◌};
ghost use Rattle.records.specs.Records.{rows_of};
ghost use Rattle.filerules.specs.FileRules.{number_rises, station_plain};

use numbers::bytes::three_zeros;
use numbers::in_range;
use records::stations::station_at;

// The first row has none before it. This, `right_rises` and the book's `is_rising` are one line each, and no shorter by one function with a closure.
#[tactic(auto, unfolding(crate::specs::FileRules::number_rises))]
fn number_rises(stations: &[u8], row: usize) -> bool
    requires { row < rows_of stations.now }
    ensures { result ≡ number_rises stations.now row }
{
    row == 0 || station_at(stations, row - 1).number < station_at(stations, row).number
}

// The rules that need no other row than the one before.
#[tactic(auto, using(general::proofs::Tests::joins), unfolding(crate::specs::FileRules::station_plain))]
pub fn plain_ok(stations: &[u8], row: usize) -> bool
    requires { row < rows_of stations.now }
    ensures { result ≡ station_plain stations.now row }
{
    let x = station_at(stations, row);
    in_range(1, x.number, 999999)
        & number_rises(stations, row)
        & in_range(1, u32::from(x.order), 8)
        & three_zeros(stations, 8 * row + 5)
}
