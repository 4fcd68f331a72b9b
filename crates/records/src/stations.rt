// The records of stations.
ghost use Rattle.std.specs.Prelude.{◌≡◌, ◌<◌};
ghost use Rattle.records.specs.Records.{rows_of, station_record};

use numbers::bytes::le32;

// A station's record but for its three zero bytes.
#[derive(Clone, Copy)]
pub struct StationRecord {
    pub number: u32,
    pub order: u8,
}

#[tactic(auto, unfolding(crate::specs::Records::station_record))]
pub fn station_at(stations: &[u8], row: usize) -> StationRecord
    requires { row < rows_of stations.now }
    ensures { result ≡ station_record stations.now row }
{
    let at = 8 * row;
    StationRecord {
        number: le32(stations, at),
        order: stations[at + 4],
    }
}
