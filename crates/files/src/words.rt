// The words of the command line. They are asked for by number, one at a time: a list of them would need a heap.
ghost use Rattle.std.specs.Prelude.{◌≤◌, length};

use std::env::FillError;
use std::rt::Env;

// Room for a word: the longest path that the system opens is a byte shorter.
pub const WORD_ROOM: usize = 4096;

// How many words the program was started with, its own name among them.
pub fn word_count<R: Env>(rt: &R) -> usize {
    (0..usize::MAX)
        .find(|&i| matches!(rt.arg(i, &mut []), Err(FillError::NotPresent)))
        .unwrap_or(usize::MAX)
}

// Word i, which is put at the start of buf: an empty one where it is missing or longer than buf. No `Option`: to each program such a word is what
// an empty one is, a name of no file or of no year.
pub fn word<'a, R: Env>(rt: &R, i: usize, buf: &'a mut [u8]) -> &'a [u8]
    ensures { length result.now ≤ length buf.old }
{
    let n = rt.arg(i, buf).unwrap_or(0);
    &buf[..n]
}
