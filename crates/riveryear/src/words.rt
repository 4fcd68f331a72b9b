// Years as words of the command line. The library's `parse` would take a plus sign before the digits, and the definition takes none.
ghost use Rattle.std.specs.Prelude.{◌≡◌, ◌+◌, ◌-◌, ◌*◌, ◌≤◌, SomeIff};
ghost use Rattle.std.specs.Char.{IsAsciiDigit};
ghost use Rattle.riveryear.specs.Words.{most_year, year_named, year_sought};

use files::words::{WORD_ROOM, word};
use std::rt::Env;

// A word that names no year is looked up as this one, which no book lists, so that a book at fault is told before it.
const NO_YEAR: u32 = 0;

// The number with one digit more. A number that has grown too large only grows, so the rest of the word need not be read.
fn with_digit(year: u32, c: u8) -> Option<u32>
    ensures { SomeIff result (IsAsciiDigit c × (10 * year + (c - 48) ≤ most_year)) (10 * year + (c - 48)) }
{
    if !c.is_ascii_digit() {
        return None;
    }
    year.checked_mul(10)?.checked_add(u32::from(c - b'0'))
}

fn year_named(word: &[u8]) -> Option<u32>
    ensures { result ≡ year_named word.now }
{
    if word.is_empty() {
        return None;
    }
    let mut year = 0;
    for &c in word {
        year = with_digit(year, c)?;
    }
    Some(year)
}

fn year_sought(word: &[u8]) -> u32
    ensures { result ≡ year_sought word.now }
{
    year_named(word).unwrap_or(NO_YEAR)
}

// The year that argument i has looked up.
pub fn year_asked<R: Env>(rt: &R, i: usize) -> u32 {
    let mut name = [0; WORD_ROOM];
    year_sought(word(rt, i, &mut name))
}
