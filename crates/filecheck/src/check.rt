// The check of a whole file: its layout, then its bodies in order. It takes any bytes.
ghost use Rattle.std.specs.Prelude.{◌≡◌, ◌≤◌, ◌<◌};
ghost use Rattle.records.specs.Records.{rows_of};
ghost use Rattle.filecheck.specs.Check.{bodies_verdict, check_of};

use crate::patterns::check_patterns;
use crate::reservoirs::check_reservoirs;
use crate::rights::check_rights;
use crate::stations::check_stations;
use records::bodies::Bodies;
use records::network::RowsBelow;
use rules::Refusal;
use sections::layout_ok;

// Stations come first: the rows that later bodies name are then known to be good, and each row below has been found.
#[tactic(auto, unfolding(crate::specs::Check::bodies_verdict))]
fn check_bodies(bodies: &Bodies<'_>) -> Result<(), Refusal>
    requires { (0 < rows_of bodies.now.stations.now) × (rows_of bodies.now.stations.now ≤ 64) }
    ensures { result ≡ bodies_verdict bodies.now.stations.now bodies.now.reservoirs.now bodies.now.patterns.now bodies.now.rights.now }
{
    let mut below = RowsBelow::none();
    check_stations(bodies.stations, &mut below)?;
    check_reservoirs(bodies)?;
    check_patterns(bodies.patterns)?;
    check_rights(bodies, &below)
}

// The verdict on any bytes.
#[tactic(auto, unfolding(crate::specs::Check::check_of))]
pub fn check(file: &[u8]) -> Result<(), Refusal>
    ensures { result ≡ check_of file.now }
{
    if !layout_ok(file) {
        return Err(Refusal::Layout);
    }
    check_bodies(&Bodies::of(file))
}
