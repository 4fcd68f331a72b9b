// The table of contents, and the parts of the file that it names.
#![tactic(auto)]

ghost use Rattle.std.specs.Prelude.{◌≡◌, ◌+◌, ◌≤◌, ◌<◌, length, MatchOption};
ghost use Rattle.sections.specs.File.{width_of, offset_of, count_of, end_of, counts_ok, packed, layout_ok, section_of};
ghost use Rattle.sections.specs.Sections.{place_of};

use numbers::bytes::le32;
use numbers::in_range;

// The sections, in the order of the table of contents.
#[derive(Clone, Copy, Debug, PartialEq, Eq)]
pub enum Section {
    Stations,
    Reservoirs,
    Patterns,
    Rights,
}

impl Section {
    // Its place in the table: the number that the language gives it, for which std has no `From`.
    fn place(self) -> usize
        ensures { (result ≡ place_of self) × (result < 4) }
    {
        self as usize
    }

    // The bytes of one record.
    #[tactic(auto, unfolding(crate::specs::File::width_of))]
    fn width(self) -> usize
        ensures { (result ≡ width_of (place_of self)) × (result < 77) }
    {
        match self {
            Section::Stations => 8,
            Section::Reservoirs => 68,
            Section::Patterns => 12,
            Section::Rights => 76,
        }
    }

    // Its records where they stand in the caller's file, nothing copied. A file whose table is not there, or points past the end, has none:
    // an empty list and not an `Option`, since the definition takes it so, and all that read a body go by its length.
    #[tactic(auto, using(general::proofs::Tests::joins), unfolding(crate::specs::File::section_of))]
    pub fn body<'a>(self, file: &'a [u8]) -> &'a [u8]
        ensures { result.now ≡ section_of file.now (place_of self) }
    {
        let Some(contents) = Contents::of(file) else {
            return &[];
        };
        let start = contents.offset(self);
        let stop = contents.end(self);
        if file.len() < stop {
            return &[];
        }
        &file[start..stop]
    }
}

// A file that is long enough for its table of contents, and what the table says.
#[derive(Clone, Copy)]
struct Contents<'a> {
    file: &'a [u8],
    ghost table: { 32 ≤ length file.now },
}

impl<'a> Contents<'a> {
    fn of(file: &'a [u8]) -> Option<Contents<'a>>
        ensures { MatchOption result (length file.now < 32) (λ c. c.file.now ≡ file.now) }
    {
        if file.len() < 32 {
            return None;
        }
        Some(Contents { file })
    }

    // Where a section's body starts. A cast, here and of a count, since std has no `From` for `u32` to `usize`.
    #[tactic(auto, unfolding(crate::specs::File::offset_of))]
    fn offset(&self, section: Section) -> usize
        ensures { (result ≡ offset_of self.now.file.now (place_of section)) × (result < 4294967296) }
    {
        le32(self.file, 8 * section.place()) as usize
    }

    // The number of its records.
    #[tactic(auto, unfolding(crate::specs::File::count_of))]
    fn count(&self, section: Section) -> u32
        ensures { result ≡ count_of self.now.file.now (place_of section) }
    {
        le32(self.file, 8 * section.place() + 4)
    }

    // Where its body ends.
    fn end(&self, section: Section) -> usize
        ensures { result ≡ end_of self.now.file.now (place_of section) }
    {
        self.offset(section) + self.count(section) as usize * section.width()
    }

    #[tactic(auto, using(general::proofs::Tests::joins), unfolding(crate::specs::File::counts_ok))]
    fn counts_ok(&self) -> bool
        ensures { result ≡ counts_ok self.now.file.now }
    {
        in_range(1, self.count(Section::Stations), 64)
            & (self.count(Section::Reservoirs) <= 8)
            & (self.count(Section::Patterns) <= 16)
            & (self.count(Section::Rights) <= 256)
    }

    #[tactic(auto, using(general::proofs::Tests::joins), unfolding(crate::specs::File::packed))]
    fn is_packed(&self) -> bool
        ensures { result ≡ packed self.now.file.now }
    {
        (self.offset(Section::Stations) == 32)
            & (self.offset(Section::Reservoirs) == self.end(Section::Stations))
            & (self.offset(Section::Patterns) == self.end(Section::Reservoirs))
            & (self.offset(Section::Rights) == self.end(Section::Patterns))
            & (self.file.len() == self.end(Section::Rights))
    }
}

// Whether the table of contents is there and describes the file.
#[tactic(auto, using(general::proofs::Tests::joins), unfolding(crate::specs::File::layout_ok))]
pub fn layout_ok(file: &[u8]) -> bool
    ensures { result ≡ layout_ok file.now }
{
    let Some(contents) = Contents::of(file) else {
        return false;
    };
    contents.counts_ok() & contents.is_packed()
}
