// The delay patterns.
ghost use Rattle.std.specs.Prelude.{◌≡◌, ℕ, ◌≤◌, ◌<◌};
ghost use Rattle.general.specs.Sums.{sum};
ghost use Rattle.records.specs.Records.{pattern_count, pattern_of};
ghost use Rattle.records.specs.Table.{sums_of, sixteen_sums};

use numbers::bytes::byte_sum;

// The sum of a pattern's percents.
#[tactic(auto, unfolding(numbers::specs::Bytes::byte_sum, crate::specs::Records::pattern_of, crate::specs::Records::percent_at, general::specs::Sums::sum_over, general::specs::Sums::sum_to, general::specs::Tables::tab))]
pub fn percent_sum(patterns: &[u8], p: usize) -> u32
    requires { p < pattern_count patterns.now }
    ensures { result ≡ sum (pattern_of patterns.now p) }
{
    byte_sum(patterns, 12 * p, 1, 12)
}

// The running sums of one pattern. Its percents are read by index: of what is written through a `zip` of `iter_mut` a proof knows nothing.
fn running_sums(patterns: &[u8], p: usize) -> [u8; 12]
    requires { (p < pattern_count patterns.now) × (sum (pattern_of patterns.now p) ≤ 100) }
    ensures { result ≡ sums_of (pattern_of patterns.now p) }
{
    let mut sums = [0u8; 12];
    let mut so_far: u8 = 0;
    for (k, sum) in sums.iter_mut().enumerate() {
        so_far += patterns[12 * p + k];
        *sum = so_far;
    }
    sums
}

// The running sums of all patterns, added up once a month, and not for each return; zeros in the places that the file leaves free. The table
// is lent, so that it stands in memory once.
pub fn add_up(patterns: &[u8], table: &mut [[u8; 12]; 16])
    requires few { pattern_count patterns.now ≤ 16 }
    requires sums { (p : ℕ) → p < pattern_count patterns.now → sum (pattern_of patterns.now p) ≤ 100 }
    ensures { table.new ≡ sixteen_sums patterns.now }
{
    table.fill([0; 12]);
    let n = patterns.len() / 12;
    for (p, sums) in table[..n].iter_mut().enumerate() {
        *sums = running_sums(patterns, p);
    }
}
