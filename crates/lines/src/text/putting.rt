// What a text is begun with, asked and given to hold. Not in the file of the struct, which can't import definitions that name the struct.
ghost use Rattle.std.specs.Prelude.{[], ◌≡◌, ◌+◌, ◌*◌, ◌<◌, ◌≤◌, length, map, take};
ghost use Rattle.listing.specs.Listing.{decimal_text, line_of};
ghost use Rattle.lines.specs.Texts.{bytes_of, room_of};
ghost use Rattle.lines.specs.Putting.{Put};

use crate::text::Text;
use crate::words::{put_decimal, put_line};

#[tactic(auto, unfolding(crate::specs::Texts::bytes_of, crate::specs::Texts::room_of))]
impl<'a> Text<'a> {
    // An empty text, with room for as many bytes as the list has.
    pub fn over(list: &'a mut [u8]) -> Text<'a>
        ensures same_list { result.list.ghost_name ≡ list.entry.ghost_name }
        ensures list { result.list.now ≡ list.old }
        ensures empty { bytes_of result ≡ [] }
        ensures room { room_of result ≡ length list.old }
    {
        Text { list, len: 0 }
    }

    // A text that goes on after the first `len` bytes of the list, which are written already.
    pub fn after(list: &'a mut [u8], len: usize) -> Text<'a>
        requires { len ≤ length list.old }
        ensures same_list { result.list.ghost_name ≡ list.entry.ghost_name }
        ensures list { result.list.now ≡ list.old }
        ensures len { result.len ≡ len }
        ensures bytes { bytes_of result ≡ take len list.old }
        ensures room { room_of result + len ≡ length list.old }
    {
        Text { list, len }
    }

    // What is written.
    pub fn bytes(&self) -> &[u8]
        ensures { result.now ≡ bytes_of self.now }
    {
        &self.list[..self.len]
    }

    // The same for as long as the list is lent.
    pub fn into_bytes(self) -> &'a [u8]
        ensures { result.now ≡ bytes_of self.entry }
    {
        let Text { list, len } = self;
        &list[..len]
    }

    // For how many bytes more there is room.
    pub fn room(&self) -> usize
        ensures { result ≡ room_of self.now }
    {
        self.list.len() - self.len
    }

    // Begins again with the whole list, of which no byte is changed.
    pub fn clear(&mut self)
        ensures same_list { self.new.list.ghost_name ≡ self.old.list.ghost_name }
        ensures list { self.new.list.now ≡ self.old.list.now }
        ensures empty { bytes_of self.new ≡ [] }
        ensures room { room_of self.new ≡ length (bytes_of self.old) + room_of self.old }
    {
        self.len = 0;
    }

    // A text that is known beforehand.
    pub fn push(&mut self, word: &[u8])
        requires { length word.now ≤ room_of self.old }
        ensures { Put (length word.now) word.now self.old self.new }
    {
        let end = self.len + word.len();
        self.list[self.len..end].copy_from_slice(word);
        self.len = end;
    }

    // A number. None has more than 20 digits.
    pub fn number(&mut self, n: u64)
        requires { 20 ≤ room_of self.old }
        ensures { Put 20 (decimal_text n) self.old self.new }
    {
        self.len = put_decimal(self.list, self.len, n);
    }

    // Numbers with single spaces between, and the line's end.
    #[inline(always)]
    pub fn line(&mut self, numbers: &[u64])
        requires { (0 < length numbers.now) × (21 * length numbers.now ≤ room_of self.old) }
        ensures { Put (21 * length numbers.now) (line_of (map decimal_text numbers.now)) self.old self.new }
    {
        self.len = put_line(self.list, self.len, numbers);
    }
}
