// The check of the body of rights.
ghost use Rattle.std.specs.Prelude.{◌≡◌};
ghost use Rattle.records.specs.Table.{GoodRows, TableFor};
ghost use Rattle.filecheck.specs.Check.{rights_verdict};

use filerules::rights::right_ok;
use records::bodies::Bodies;
use records::network::RowsBelow;
use rules::Refusal;

// The first right at fault. The stations' check has left the table of rows below, and the rows of the reservoirs are known to be stations'
// rows by now.
pub fn check_rights(bodies: &Bodies<'_>, below: &RowsBelow) -> Result<(), Refusal>
    requires { TableFor bodies.now.stations.now below.now.rows × GoodRows bodies.now.stations.now bodies.now.reservoirs.now }
    ensures { result ≡ rights_verdict bodies.now.stations.now bodies.now.reservoirs.now bodies.now.patterns.now bodies.now.rights.now }
{
    let n = bodies.right_count();
    // The other checks have `map_or`, by which the largest file took a little more than one instruction in a hundred more here.
    match (0..n).find(|&i| !right_ok(bodies, below, i)) {
        Some(i) => Err(Refusal::Right(i)),
        None => Ok(()),
    }
}
