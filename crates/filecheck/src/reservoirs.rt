// The check of the body of reservoirs.
ghost use Rattle.std.specs.Prelude.{◌≡◌};
ghost use Rattle.filecheck.specs.Check.{reservoirs_verdict};

use filerules::reservoirs::reservoir_ok;
use records::bodies::Bodies;
use rules::Refusal;

// The first reservoir at fault.
pub fn check_reservoirs(bodies: &Bodies<'_>) -> Result<(), Refusal>
    ensures { result ≡ reservoirs_verdict bodies.now.stations.now bodies.now.reservoirs.now }
{
    let n = bodies.reservoir_count();
    (0..n)
        .find(|&v| !reservoir_ok(bodies, v))
        .map_or(Ok(()), |v| Err(Refusal::Reservoir(v)))
}
