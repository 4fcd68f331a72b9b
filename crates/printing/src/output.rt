// Standard output.
ghost use Rattle.std.specs.Prelude.{◌≡◌, ◌+◌, ◌≤◌, ◌<◌, length, IfOk, OnErr};
ghost use Rattle.lines.specs.Texts.{bytes_of, room_of};
ghost use Rattle.lines.specs.Putting.{most_text};
ghost use Rattle.lister.specs.Lister.{text_of};
ghost use Rattle.printing.specs.Going.{RoomMade};

use files::reasons::fail;
use files::send;
use lines::month_lines::MOST_TEXT;
use lines::text::Text;
use lister::Listing;
use std::io;

// A text could not be written. The reason has been told.
#[derive(Clone, Copy)]
pub struct Unwritten;

// Writes a text. Where it can't be written the reason goes to standard error.
pub fn write<R: Print + Eprint>(rt: &R, text: &[u8]) -> Result<(), Unwritten> {
    match send(&mut io::writer(rt), text) {
        Ok(()) => Ok(()),
        Err(e) => {
            fail(rt, b"standard output", e);
            Err(Unwritten)
        }
    }
}

// Room for one month more: where it might not fit, what the text holds is written, and it begins again. No byte of its list is changed, so that what
// could not be written still stands there.
#[tactic(auto, unfolding(lines::specs::Texts::bytes_of, lines::specs::Texts::room_of))]
pub fn make_room<R: Print + Eprint>(rt: &R, text: &mut Text) -> Result<(), Unwritten>
    requires { most_text ≤ length (bytes_of text.old) + room_of text.old }
    ensures room { most_text ≤ room_of text.new }
    ensures list { length (bytes_of text.new) + room_of text.new ≡ length (bytes_of text.old) + room_of text.old }
    ensures same_list { text.new.list.ghost_name ≡ text.old.list.ghost_name }
    ensures kept { text.new.list.now ≡ text.old.list.now }
    ensures as_it_was { most_text ≤ room_of text.old → text.new.len ≡ text.old.len }
    ensures begins_again { room_of text.old < most_text → text.new.len ≡ 0 }
{
    if MOST_TEXT <= text.room() {
        return Ok(());
    }
    let written = write(rt, text.bytes());
    text.clear();
    written
}

// The same in a list of which `at` bytes are written. Answers how many are then.
fn room_in<R: Print + Eprint>(rt: &R, list: &mut [u8], at: usize) -> Result<usize, Unwritten>
    requires { (at ≤ length list.old) × (most_text ≤ length list.old) }
    ensures kept { list.new ≡ list.old }
    ensures room { IfOk result (λ n. n + most_text ≤ length list.old) }
    ensures as_it_was { at + most_text ≤ length list.old → IfOk result (λ n. n ≡ at) }
    ensures begins_again { length list.old < at + most_text → IfOk result (λ n. n ≡ 0) }
{
    let mut text = Text::after(list, at);
    make_room(rt, &mut text)?;
    Ok(text.len)
}

// Room in a listing. What could not be written stays its text.
pub fn room_for_month<R: Print + Eprint>(rt: &R, listing: &mut Listing) -> Result<(), Unwritten>
    requires { most_text ≤ length (bytes_of (text_of listing.old)) + room_of (text_of listing.old) }
    ensures made { RoomMade listing.old listing.new }
    ensures room { IfOk result (λ _. most_text ≤ room_of (text_of listing.new)) }
    ensures as_it_was { most_text ≤ room_of (text_of listing.old) → listing.new.written ≡ listing.old.written }
    ensures begins_again { room_of (text_of listing.old) < most_text → IfOk result (λ _. listing.new.written ≡ 0) }
    ensures unwritten { OnErr result (listing.new.written ≡ listing.old.written) }
{
    listing.written = room_in(rt, listing.list, listing.written)?;
    Ok(())
}
