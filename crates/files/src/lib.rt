// Reading that tells a failure from the end of the input, and writing that an interruption does not end.
// What reads a file or a word hands out the part of the lent list that it filled, and promises that it is no longer than the list, as the programs'
// functions do that pass it on: the part is a slice already, and a type for the promise would have to keep the list's length beside it. `fill` alone
// tells a count, as what came before a failure is told by one too.
#![tactic(auto)]

ghost use Rattle.std.specs.Prelude.{◌≡◌, ◌<◌, ◌≤◌, length, take, IfOk, OnOk};
ghost use Rattle.std.specs.Io.KnownBytes.{Appends, Consumes, IsAtEnd};
ghost use Rattle.files.specs.Counts.{IsPrefixLen};
ghost use Rattle.files.specs.Reading.{bytes_read};

use std::io;
use std::io::{ErrorKind, Read, Write};
use std::rt::Files;

pub mod reasons;
pub mod words;

use reasons::fail;

// Room for a file, for a block of one, or for a text: without a heap it is an array, and the part that is read is handed out of it.
pub const FILE_ROOM: usize = 65536;

// Why a read failed, and how many bytes were read before it.
#[derive(Drop)]
pub struct ReadError {
    pub count: usize,
    pub error: io::Error,
}

impl From<ReadError> for io::Error {
    ghost from_gives = { λ e r. r ≡ e.error };

    fn from(e: ReadError) -> io::Error {
        e.error
    }
}

// Reads until buf is full, the input ends or a read fails: a count below buf's length is the whole of the input. A read that a signal interrupts
// is made again; the tries are counted, since a proved loop has to end.
pub fn fill<F: Read>(file: &mut F, buf: &mut [u8]) -> Result<usize, ReadError>
    ensures prefix_len { IsPrefixLen (bytes_read result) buf.new }
    ensures buf_len_unchanged { length buf.new ≡ length buf.old }
    ensures bytes { Consumes (F.remaining file.old) (F.remaining file.new) (take (bytes_read result) buf.new) }
    ensures end { IfOk result (λ n. n < length buf.new → IsAtEnd (F.remaining file.new)) }
{
    let mut count = 0;
    for _ in 0..u64::MAX {
        if count >= buf.len() {
            return Ok(count);
        }
        match file.read(&mut buf[count..]) {
            Ok(0) => return Ok(count),
            Ok(n) => count += n,
            Err(error) => {
                if error.kind() != ErrorKind::Interrupted {
                    return Err(ReadError { count, error });
                }
            }
        }
    }
    let error = io::Error::from(ErrorKind::Interrupted);
    Err(ReadError { count, error })
}

// A file, open to be read. The system's paths are text: a name that is none names no file.
pub fn open_read<R: Files>(rt: &R, path: &[u8]) -> io::Result<R::File> {
    let name = std::str::from_utf8(path).map_err(|_| ErrorKind::InvalidFilename)?;
    std::fs::open(rt, name)
}

// The bytes of a file, as far as there is room for them.
pub fn read_file<'a, R: Files>(rt: &R, path: &[u8], buf: &'a mut [u8]) -> io::Result<&'a [u8]>
    ensures { IfOk result (λ bytes. length bytes.now ≤ length buf.old) }
{
    let mut file = open_read(rt, path)?;
    let n = fill(&mut file, buf)?;
    Ok(&buf[..n])
}

// The same. A file that can't be opened or read counts as empty, since each program lists it as one, and the reason goes to standard error.
pub fn read_whole<'a, R: Files + Eprint>(rt: &R, path: &[u8], buf: &'a mut [u8]) -> &'a [u8]
    ensures { length result.now ≤ length buf.old }
{
    match read_file(rt, path, buf) {
        Ok(bytes) => bytes,
        Err(e) => {
            fail(rt, path, e);
            &[]
        }
    }
}

// Writes all of the bytes. Fails at the first write that moves nothing. Not std's `write_all`, which on standard output gives a text up after many
// interrupted writes: here the tries are counted too, as in `fill`, but up to more than any program lives to make.
pub fn send<W: Write>(to: &mut W, bytes: &[u8]) -> io::Result<()>
    ensures { OnOk result (Appends (W.contents to.old) (W.contents to.new) bytes.now) }
{
    let mut rest = bytes;
    for _ in 0..u64::MAX {
        if rest.is_empty() {
            return Ok(());
        }
        match to.write(rest) {
            Ok(0) => return Err(io::Error::from(ErrorKind::WriteZero)),
            Ok(n) => rest = &rest[n..],
            Err(e) => {
                if e.kind() != ErrorKind::Interrupted {
                    return Err(e);
                }
            }
        }
    }
    Err(io::Error::from(ErrorKind::Interrupted))
}
