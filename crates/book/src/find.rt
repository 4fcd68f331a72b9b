// A year of the book: its body as a part of the book. Both look-ups take any bytes and any year.
ghost use Rattle.std.specs.Prelude.{◌≡◌, IfOk};
ghost use Rattle.rules.specs.Basin.{rows};
ghost use Rattle.records.specs.Records.{basin_of};
ghost use Rattle.answers.specs.Answers.{refusal_of};
ghost use Rattle.book.specs.Book.{lookup_refusal, year_part};

use crate::contents::Table;
use filecheck::check::check;
use records::bodies::Bodies;
use rules::Refusal;

// How many stations the basin has.
pub fn station_count(file: &[u8]) -> usize
    ensures { result ≡ rows (basin_of file.now) }
{
    Bodies::of(file).rows()
}

// The year's body, where it stands in the book.
pub fn find_year<'a>(file: &[u8], book: &'a [u8], year: u32) -> Result<&'a [u8], Refusal>
    ensures refused { refusal_of result ≡ lookup_refusal file.now book.now year }
    ensures part { IfOk result (λ body. body.now ≡ year_part file.now book.now year) }
{
    check(file)?;
    let table = Table::kept(station_count(file), book).ok_or(Refusal::Book)?;
    table.listed_body(year).ok_or(Refusal::Year)
}

// The same for a caller that does not ask why: an empty part where the look-up is refused. A basin has a station, so no body is empty.
#[tactic(auto, unfolding(crate::specs::Book::year_part, crate::specs::Book::part_where))]
pub fn year_part<'a>(file: &[u8], book: &'a [u8], year: u32) -> &'a [u8]
    ensures { result.now ≡ year_part file.now book.now year }
{
    find_year(file, book, year).unwrap_or(&[])
}
