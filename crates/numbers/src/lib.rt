// Small tests on numbers, and the bits of a word.
#![tactic(auto)]

ghost use Rattle.std.specs.Prelude.{◌≡◌, Bool, ℕ, ◌≤◌, ◌<◌, ◌^◌};
ghost use Rattle.general.specs.Tests.{◌and◌, between, all_to, bit, with_bit};

pub mod bytes;

// ---- bits of a word

// Whether bit i of a word is set.
#[tactic(auto, unfolding(general::specs::Tests::bit))]
pub fn bit_of(word: u64, i: u64) -> bool
    requires { i < 64 }
    ensures { result ≡ bit word i }
{
    (word >> i) % 2 == 1
}

// The word whose bit i alone is set.
pub fn power(i: u64) -> u64
    requires { i < 64 }
    ensures { result ≡ 2 ^ i }
{
    1u64 << i
}

// The word with bit i made 1 or 0; of 32 bits, so that no sum wraps.
#[tactic(auto, using(general::proofs::Bits::and_bit), unfolding(general::specs::Tests::with_bit))]
pub fn put_bit(word: u64, i: u64, on: bool) -> u64
    requires { (i < 32) × (word < 2 ^ 32) }
    ensures { result ≡ with_bit word i on }
{
    let one = power(i);
    let rest = word - (word & one);
    if on {
        return rest + one;
    }
    rest
}

// ---- tests

// The library's `contains` promises inequalities. They are turned once, here, into the one test by which the rules name a range, so that
// the tests of a file, joined by `&`, need no proof of their own.
#[tactic(auto, using(general::proofs::Tests::joins), unfolding(general::specs::Tests::between))]
pub fn in_range(low: u32, x: u32, high: u32) -> bool
    ensures { result ≡ between low x high }
{
    (low..=high).contains(&x)
}

// Whether all numbers below n pass a test. All are asked: a loop that may leave early costs more than it saves, since most files are good.
// A `fold` would be a closure around the closure.
#[tactic(auto, using(general::proofs::Tests::joins), unfolding(general::specs::Tests::all_to))]
pub fn all_below<F: Fn(usize) -> bool>(n: usize, test: F) -> bool
    requires { (k : ℕ) → k < n → F.pre test k }
    ensures { (t : ℕ → Bool) → ((k : ℕ) (b : Bool) → k < n → F.post test k b → b ≡ t k) → result ≡ all_to n t }
{
    let mut all = true;
    for k in 0..n {
        all &= test(k);
    }
    all
}
