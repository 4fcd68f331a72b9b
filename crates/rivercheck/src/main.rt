// Checks the basin files that its arguments name, and prints a line for each: accepted, or refused with the number of document 01 and the
// first record at fault. A file that cannot be read is said to be that and never judged; the reason goes to standard error.
#![tactic(auto)]

use answers::Answer;
use filecheck::check::check;
use files::reasons::fail;
use files::words::{WORD_ROOM, word, word_count};
use files::{FILE_ROOM, read_file};
use std::io::{self, Write};
use std::rt::{Env, Files};

// The functions that print fail where not all could be written. A path need not be text, so its bytes are written as they are. The rest of a line
// goes part by part too (`printing::saying` says why).
fn print_verdict<R: Print>(rt: &R, path: &[u8], file: &[u8]) -> io::Result<()> {
    rt.write_all(path)?;
    match check(file) {
        Ok(()) => writeln!(io::writer(rt), " accepted"),
        Err(refusal) => {
            let answer = Answer::from(refusal);
            writeln!(io::writer(rt), " refused {answer}")
        }
    }
}

fn print_unread<R: Print>(rt: &R, path: &[u8]) -> io::Result<()> {
    rt.write_all(path)?;
    writeln!(io::writer(rt), " cannot be read")
}

// A folder opens as a file does, and only the read tells. The buffer is longer than any file that keeps the layout, so a file that is cut here
// is refused as the whole would be.
fn check_file<R: Files + Print + Eprint>(rt: &R, path: &[u8]) -> io::Result<()> {
    let mut space = [0; FILE_ROOM];
    match read_file(rt, path, &mut space) {
        Ok(file) => print_verdict(rt, path, file),
        Err(e) => {
            fail(rt, path, e);
            print_unread(rt, path)
        }
    }
}

// Where a line cannot be written the later ones would be lost too. The words are asked for by number (`files::words`).
fn check_all<R: Files + Env + Print + Eprint>(rt: &R) -> io::Result<()> {
    for i in 1..word_count(rt) {
        let mut space = [0; WORD_ROOM];
        check_file(rt, word(rt, i, &mut space))?;
    }
    Ok(())
}

fn main(rt: HostRuntime) {
    if let Err(e) = check_all(&rt) {
        fail(&rt, b"standard output", e);
    }
}
