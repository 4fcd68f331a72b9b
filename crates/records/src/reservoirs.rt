// The records of reservoirs.
ghost use Rattle.std.specs.Prelude.{◌≡◌, ◌<◌};
ghost use Rattle.records.specs.Records.{reservoir_count, reservoir_record, content_at, area_at, depth_at};

use numbers::bytes::{le16, le32};

// The first 12 bytes of a reservoir's record. Its area-capacity table and its depths are read where they stand.
#[derive(Clone, Copy)]
pub struct ReservoirRecord {
    pub row: u8,
    pub capacity: u32,
    pub start: u32,
}

#[tactic(auto, unfolding(crate::specs::Records::reservoir_record))]
pub fn reservoir_at(reservoirs: &[u8], v: usize) -> ReservoirRecord
    requires { v < reservoir_count reservoirs.now }
    ensures { result ≡ reservoir_record reservoirs.now v }
{
    let at = 68 * v;
    ReservoirRecord {
        row: reservoirs[at],
        capacity: le32(reservoirs, at + 4),
        start: le32(reservoirs, at + 8),
    }
}

// The storage of pair k of the area-capacity table. It and the next differ in a number, which one function would be told at each call in
// place of a name; the definitions have both names.
#[tactic(auto, unfolding(crate::specs::Records::content_at))]
pub fn content_at(reservoirs: &[u8], v: usize, k: usize) -> u32
    requires { (v < reservoir_count reservoirs.now) × (k < 4) }
    ensures { result ≡ content_at reservoirs.now v k }
{
    le32(reservoirs, 68 * v + 12 + 8 * k)
}

// The area of pair k of that table.
#[tactic(auto, unfolding(crate::specs::Records::area_at))]
pub fn area_at(reservoirs: &[u8], v: usize, k: usize) -> u32
    requires { (v < reservoir_count reservoirs.now) × (k < 4) }
    ensures { result ≡ area_at reservoirs.now v k }
{
    le32(reservoirs, 68 * v + 16 + 8 * k)
}

// The depth that evaporates in month m. A month is a number in range wherever a rule is of one, as at the places of a board.
#[tactic(auto, unfolding(crate::specs::Records::depth_at))]
pub fn depth_at(reservoirs: &[u8], v: usize, m: usize) -> u16
    requires { (v < reservoir_count reservoirs.now) × (m < 12) }
    ensures { result ≡ depth_at reservoirs.now v m }
{
    le16(reservoirs, 68 * v + 44 + 2 * m)
}
