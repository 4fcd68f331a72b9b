// Why something failed, told on standard error.
use std::fmt::InlineText;
use std::io;

// Writes a line to standard error: what failed, a colon and the reason, in the system's words; the error's number, which std puts after them,
// is left out. Where it can't be written there is nowhere else to tell it.
pub fn fail<R: Eprint>(rt: &R, what: &[u8], error: io::Error) {
    let words = InlineText::<256>::of(error);
    let all = words.as_str();
    let reason = all
        .rsplit_once(" (os error ")
        .map_or(all, |(before, _)| before);
    // A name that is no text is told with its other bytes as \x and two digits.
    let _ = match std::str::from_utf8(what) {
        Ok(name) => eprintln!(rt; "{name}: {reason}"),
        Err(_) => eprintln!(rt; "{}: {reason}", what.escape_ascii()),
    };
}
