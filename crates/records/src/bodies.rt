// The four bodies of a basin file.
ghost use Rattle.std.specs.Prelude.{◌≡◌, ◌≤◌};
ghost use Rattle.records.specs.Records.{rows_of, reservoir_count, pattern_count, right_count};
ghost use Rattle.records.specs.Bodies.{BodiesOf};

use places::report::Shape;
use sections::Section;

// The records of each section where they stand in the caller's bytes, nothing copied. Their counts have no bound in the type: the check reads the
// bodies before a file is accepted. What needs the bounds asks for them: `shape`, and the judgements of boards and lists.
#[derive(Clone, Copy)]
pub struct Bodies<'a> {
    pub stations: &'a [u8],
    pub reservoirs: &'a [u8],
    pub patterns: &'a [u8],
    pub rights: &'a [u8],
}

impl<'a> Bodies<'a> {
    pub fn of(file: &'a [u8]) -> Bodies<'a>
        ensures { BodiesOf file.now result }
    {
        Bodies {
            stations: Section::Stations.body(file),
            reservoirs: Section::Reservoirs.body(file),
            patterns: Section::Patterns.body(file),
            rights: Section::Rights.body(file),
        }
    }

    // How many stations there are, which is how many rows. Each body has a count of its own, by the bytes of its records: one function for the
    // four would be told a body and a number. What is lent one body alone divides its length itself.
    pub fn rows(&self) -> usize
        ensures { result ≡ rows_of self.now.stations.now }
    {
        self.stations.len() / 8
    }

    pub fn reservoir_count(&self) -> usize
        ensures { result ≡ reservoir_count self.now.reservoirs.now }
    {
        self.reservoirs.len() / 68
    }

    pub fn pattern_count(&self) -> usize
        ensures { result ≡ pattern_count self.now.patterns.now }
    {
        self.patterns.len() / 12
    }

    pub fn right_count(&self) -> usize
        ensures { result ≡ right_count self.now.rights.now }
    {
        self.rights.len() / 76
    }

    // What decides where the numbers of a report stand. The counts are those of an accepted file.
    pub fn shape(&self) -> Shape
        requires { let b = self.now in (right_count b.rights.now ≤ 256) × (rows_of b.stations.now ≤ 64) × (reservoir_count b.reservoirs.now ≤ 8) }
        ensures { let b = self.now in (result.rights ≡ right_count b.rights.now) × (result.rows ≡ rows_of b.stations.now) × (result.reservoirs ≡ reservoir_count b.reservoirs.now) }
    {
        Shape {
            rights: self.right_count(),
            rows: self.rows(),
            reservoirs: self.reservoir_count(),
        }
    }
}
