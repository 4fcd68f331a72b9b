// The check of the body of delay patterns.
ghost use Rattle.std.specs.Prelude.{◌≡◌};
ghost use Rattle.filecheck.specs.Check.{patterns_verdict};

use records::patterns::percent_sum;
use rules::Refusal;

// The first pattern at fault.
pub fn check_patterns(patterns: &[u8]) -> Result<(), Refusal>
    ensures { result ≡ patterns_verdict patterns.now }
{
    let n = patterns.len() / 12;
    (0..n)
        .find(|&p| percent_sum(patterns, p) > 100)
        .map_or(Ok(()), |p| Err(Refusal::Pattern(p)))
}
