// A grant with its reason, and what the river gives.
ghost use Rattle.std.specs.Prelude.{◌≡◌};
ghost use Rattle.grants.specs.Grants.{why_of, CanSee, RiverGave};

use records::rights::{Kind, RightRecord};
use records::stations::station_at;
use river::setting::Setting;
use river::{River, Seen};

// Why a right is short. The called and the river-low case carry the number of the controlling station; a project right's is that of its reservoir.
// That it is not short is a reason too, the first by 01's numbers, and the reason of a part where nothing is asked.
#[derive(Clone, Copy)]
pub enum Reason {
    Met,
    Called(u32),
    RiverLow(u32),
    StorageOut,
}

// 01's number for a reason.
impl From<Reason> for u64 {
    ghost from_gives = { λ reason number. number ≡ why_of reason };

    #[tactic(auto, unfolding(crate::specs::Grants::why_of))]
    fn from(reason: Reason) -> u64 {
        match reason {
            Reason::Met => 0,
            Reason::Called(_) => 1,
            Reason::RiverLow(_) => 2,
            Reason::StorageOut => 3,
        }
    }
}

// What a right is granted and why no more, and what of it goes deep.
#[derive(Clone, Copy)]
pub struct Grant {
    pub from_river: u64,
    pub from_storage: u64,
    pub reason: Reason,
    pub deep: u64,
}

// What the river gives of a demand, and the reason where that is short.
#[derive(Clone, Copy)]
pub struct RiverPart {
    pub part: u64,
    pub reason: Reason,
}

// What the river gives to a right at a row. An instream right is never called, and looks at its own row only; the others look down their path. A demand of nothing needs no look.
#[tactic(auto, unfolding(crate::specs::Grants::part_of, crate::specs::Grants::reason_of), using(crate::proofs::Looks::called_in, crate::proofs::Looks::low_in, crate::proofs::Looks::low_on))]
pub fn river_part(
    setting: &Setting,
    river: &River,
    short: &[bool; 64],
    right: RightRecord,
    demand: u64,
) -> RiverPart
    requires { let s = setting.now in CanSee s.bodies.now.stations.now s.below.now.rows right.row }
    ensures { let s = setting.now in RiverGave s.bodies.now.stations.now s.below.now.rows river.now.available short.now right.kind right.row demand result }
{
    if demand == 0 {
        return RiverPart {
            part: 0,
            reason: Reason::Met,
        };
    }
    let stations = setting.bodies.stations;
    let row = usize::from(right.row);
    if let Kind::Instream = right.kind {
        return RiverPart {
            part: demand.min(river.available[row]),
            reason: Reason::RiverLow(station_at(stations, row).number),
        };
    }
    let seen = river.look(setting.below, short, row, row);
    match seen {
        Seen::Called(q) => RiverPart {
            part: 0,
            reason: Reason::Called(station_at(stations, q).number),
        },
        Seen::Low(q) => RiverPart {
            part: demand.min(river.available[q]),
            reason: Reason::RiverLow(station_at(stations, q).number),
        },
    }
}
