// The book's table of contents, and the parts of the book that it names. What is asked before there is a `Table` stands in front of it; its methods of
// the same name ask nothing of length or years. `body_size`, `packed_at`, `of` and `kept` ask that the rows are at most 64; from then on the `Table`
// keeps it.
ghost use Rattle.std.specs.Prelude.{◌≡◌, true, false, ◌+◌, ◌*◌, ◌≤◌, ◌<◌, length, option_copied, option_map, MatchOption};
ghost use Rattle.general.specs.Tests.{all_to};
ghost use Rattle.book.specs.Book.{most_years, year_count, entry_at, year_at, offset_at, body_size, packed_at, rises, entry_ok, book_ok, listed_at, body_of, Kept, Sized};

use numbers::bytes::le32;
use numbers::{all_below, in_range};
use sheets::sheet_size;

const MOST_YEARS: usize = 20;

const FIRST_YEAR: u32 = 1800;

const LAST_YEAR: u32 = 2200;

// A cast, here and of an offset, since std has no `From` for `u32` to `usize`.
#[tactic(auto, unfolding(crate::specs::Book::year_count))]
fn year_count(book: &[u8]) -> usize
    requires { 4 ≤ length book.now }
    ensures { result ≡ year_count book.now }
{
    le32(book, 0) as usize
}

// Where entry i of the table starts, or the table ends.
fn entry_at(i: usize) -> usize
    requires { i ≤ most_years }
    ensures { result ≡ entry_at i }
{
    4 + 8 * i
}

// A sheet for each of twelve months: a number of four bytes for each station.
fn body_size(rows: usize) -> usize
    requires { rows ≤ 64 }
    ensures { result ≡ body_size rows }
{
    12 * sheet_size(rows)
}

// Where body i starts if those before it follow a table of so many years without gaps.
fn packed_at(rows: usize, years: usize, i: usize) -> usize
    requires { (rows ≤ 64) × (years ≤ most_years) × (i ≤ most_years) }
    ensures { result ≡ entry_at years + body_size rows * i }
{
    entry_at(years) + body_size(rows) * i
}

// The table of a book for so many stations. The number of its years is there and not too large, and the book is as long as that number asks.
// An entry is told by its place, as a record is.
#[derive(Clone, Copy)]
pub struct Table<'a> {
    rows: usize,
    book: &'a [u8],
    ghost sized: { Sized rows book.now },
}

impl<'a> Table<'a> {
    #[tactic(auto, using(general::proofs::Tests::joins), unfolding(crate::specs::Book::book_ok, crate::specs::Book::packed_at))]
    fn of(rows: usize, book: &'a [u8]) -> Option<Table<'a>>
        requires { rows ≤ 64 }
        ensures { MatchOption result (book_ok rows book.now ≡ false) (λ t. (t.rows ≡ rows) × (t.book.now ≡ book.now)) }
    {
        if book.len() < 4 {
            return None;
        }
        let years = year_count(book);
        if MOST_YEARS < years {
            return None;
        }
        if book.len() != packed_at(rows, years, years) {
            return None;
        }
        Some(Table { rows, book })
    }

    // The table, where the bytes keep the layout of a book.
    #[tactic(auto, using(general::proofs::Tests::joins), unfolding(crate::specs::Book::book_ok))]
    pub fn kept(rows: usize, book: &'a [u8]) -> Option<Table<'a>>
        requires { rows ≤ 64 }
        ensures { MatchOption result (book_ok rows book.now ≡ false) (λ t. (t.rows ≡ rows) × (t.book.now ≡ book.now) × (book_ok rows book.now ≡ true)) }
    {
        let table = Table::of(rows, book)?;
        table.entries_ok().then_some(table)
    }

    fn year_count(&self) -> usize
        ensures { result ≡ year_count self.now.book.now }
    {
        year_count(self.book)
    }

    #[tactic(auto, using(crate::proofs::Bodies::entry_within), unfolding(crate::specs::Book::year_at))]
    fn year_at(&self, i: usize) -> u32
        requires { i < year_count self.now.book.now }
        ensures { result ≡ year_at self.now.book.now i }
    {
        le32(self.book, entry_at(i))
    }

    #[tactic(auto, using(crate::proofs::Bodies::entry_within), unfolding(crate::specs::Book::offset_at))]
    fn offset_at(&self, i: usize) -> usize
        requires { i < year_count self.now.book.now }
        ensures { result ≡ offset_at self.now.book.now i }
    {
        le32(self.book, entry_at(i) + 4) as usize
    }

    // One line, as `filerules` has for stations and rights.
    #[tactic(auto, unfolding(crate::specs::Book::rises))]
    fn is_rising(&self, i: usize) -> bool
        requires { i < year_count self.now.book.now }
        ensures { result ≡ rises self.now.book.now i }
    {
        i == 0 || self.year_at(i - 1) < self.year_at(i)
    }

    #[tactic(auto, unfolding(crate::specs::Book::packed_at))]
    fn packed_at(&self, i: usize) -> usize
        requires { i < year_count self.now.book.now }
        ensures { result ≡ packed_at self.now.rows self.now.book.now i }
    {
        packed_at(self.rows, self.year_count(), i)
    }

    #[tactic(auto, using(general::proofs::Tests::joins), unfolding(crate::specs::Book::entry_ok))]
    fn entry_ok(&self, i: usize) -> bool
        requires { i < year_count self.now.book.now }
        ensures { result ≡ entry_ok self.now.rows self.now.book.now i }
    {
        in_range(FIRST_YEAR, self.year_at(i), LAST_YEAR)
            & self.is_rising(i)
            & (self.offset_at(i) == self.packed_at(i))
    }

    // All entries are looked at (`numbers::all_below`).
    fn entries_ok(&self) -> bool
        ensures { result ≡ all_to (year_count self.now.book.now) (entry_ok self.now.rows self.now.book.now) }
    {
        all_below(self.year_count(), |i| self.entry_ok(i))
    }

    // A body of a book that keeps its layout, where it stands in the book, nothing copied.
    fn body_at(&self, i: usize) -> &'a [u8]
        requires { Kept self.now.rows self.now.book.now × (i < year_count self.now.book.now) }
        ensures { result.now ≡ body_of self.now.rows self.now.book.now i }
    {
        let start = self.offset_at(i);
        let stop = start + body_size(self.rows);
        &self.book[start..stop]
    }

    // The body of a year, where the book lists it.
    pub fn listed_body(&self, year: u32) -> Option<&'a [u8]>
        requires { Kept self.now.rows self.now.book.now }
        ensures { option_copied result ≡ option_map (body_of self.now.rows self.now.book.now) (listed_at self.now.book.now year) }
    {
        let i = (0..self.year_count()).find(|&i| self.year_at(i) == year)?;
        Some(self.body_at(i))
    }
}
