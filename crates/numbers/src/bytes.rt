// Numbers in a list of bytes, the least significant byte first: read, and written.
ghost use Rattle.std.specs.Prelude.{◌≡◌, ◌+◌, ◌*◌, ◌≤◌, ◌<◌, length, slice_range};
ghost use Rattle.general.specs.Parts.{over};
ghost use Rattle.numbers.specs.Bytes.{le16_at, le32_at, le64_at, bytes64, three_zeros, all_at_most, byte_sum};

use crate::all_below;

// The N bytes from a place on.
pub fn bytes_at<const N: usize>(s: &[u8], at: usize) -> [u8; N]
    requires { at + N ≤ length s.now }
    ensures { result ≡ slice_range s.now at (at + N) }
{
    s[at..at + N].try_into().unwrap()
}

// A number of two bytes, of four and of eight. The library has a method for each width as well. That the bytes are there is asked of the
// caller, who has judged the length once: no test is run for it.
#[tactic(auto, unfolding(crate::specs::Bytes::le16_at))]
pub fn le16(s: &[u8], at: usize) -> u16
    requires { at + 2 ≤ length s.now }
    ensures { result ≡ le16_at s.now at }
{
    u16::from_le_bytes(bytes_at(s, at))
}

#[tactic(auto, unfolding(crate::specs::Bytes::le32_at))]
pub fn le32(s: &[u8], at: usize) -> u32
    requires { at + 4 ≤ length s.now }
    ensures { result ≡ le32_at s.now at }
{
    u32::from_le_bytes(bytes_at(s, at))
}

#[tactic(auto, unfolding(crate::specs::Bytes::le64_at, crate::specs::Bytes::le32_at))]
pub fn le64(s: &[u8], at: usize) -> u64
    requires { at + 8 ≤ length s.now }
    ensures { result ≡ le64_at s.now at }
{
    u64::from_le_bytes(bytes_at(s, at))
}

#[tactic(auto, using(crate::proofs::Words::written))]
pub fn put64(s: &mut [u8], at: usize, x: u64)
    requires { at + 8 ≤ length s.old }
    ensures { s.new ≡ over s.old at (bytes64 x) }
{
    s[at..at + 8].copy_from_slice(&x.to_le_bytes());
}

// Whether three bytes are zero: one by one, as the definition tells them, and joined as all tests of a record are. Compared as an array with `[0; 3]`
// they cost three instructions more in each record.
#[tactic(auto, using(general::proofs::Tests::joins), unfolding(crate::specs::Bytes::three_zeros))]
pub fn three_zeros(s: &[u8], at: usize) -> bool
    requires { at + 3 ≤ length s.now }
    ensures { result ≡ three_zeros s.now at }
{
    (s[at] == 0) & (s[at + 1] == 0) & (s[at + 2] == 0)
}

// Whether n numbers of four bytes, each `step` bytes after the one before, are at most a limit: a test of n places like the others,
// by `all_below`, which asks all of them where the library's `all` stops at the first that fails.
#[tactic(auto, unfolding(crate::specs::Bytes::all_at_most))]
pub fn all_at_most(s: &[u8], at: usize, step: usize, n: usize, most: u32) -> bool
    requires { (at + step * n ≤ length s.now) × (4 ≤ step) }
    ensures { result ≡ all_at_most s.now at step n most }
{
    all_below(n, |k| le32(s, at + step * k) <= most)
}

// The sum of n bytes, each `step` bytes after the one before. It is wide enough for twelve bytes of 255.
pub fn byte_sum(s: &[u8], at: usize, step: usize, n: usize) -> u32
    requires { (at + step * n < length s.now + step) × (n ≤ 12) }
    ensures { result ≡ byte_sum s.now at step n }
{
    (0..n).map(|k| u32::from(s[at + step * k])).sum()
}
