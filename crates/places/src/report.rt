// The places of a report. Each function asks that its number is in range, as those of a board do.
ghost use Rattle.std.specs.Prelude.{◌≡◌, ◌≤◌};
ghost use Rattle.places.specs.Report.{from_river_place, flow_place, rows_end, deep_place, report_end};

// The numbers of the longest report: that of a basin with as many of each as a file may have.
pub const MOST_REPORT: usize = 1161;

// The numbers of a right's line, counted from its first.
pub const FROM_STORAGE: usize = 1;

pub const REASON: usize = 2;

pub const STATION: usize = 3;

// The numbers of a row, counted from its first, which is its flow.
pub const AVAILABLE: usize = 1;

// The first number of right i's line: what it is granted from the river.
pub fn line_place(i: usize) -> usize
    requires { i ≤ 256 }
    ensures { result ≡ from_river_place i }
{
    4 * i
}

// How many rights, rows and reservoirs a basin has: these decide where each number of its reports stands.
#[derive(Clone, Copy)]
pub struct Shape {
    pub rights: usize,
    pub rows: usize,
    pub reservoirs: usize,
    ghost few: { (rights ≤ 256) × (rows ≤ 64) × (reservoirs ≤ 8) },
}

impl Shape {
    // The flow of row w; of a row past the last, where the rows end.
    pub fn flow_place(self, w: usize) -> usize
        requires { w ≤ 64 }
        ensures { result ≡ flow_place self.rights w }
    {
        line_place(self.rights) + 2 * w
    }

    // Where the rows end, and the evaporations begin.
    pub fn rows_end(self) -> usize
        ensures { result ≡ rows_end self.rights self.rows }
    {
        self.flow_place(self.rows)
    }

    // What went deep: the last number of a report.
    pub fn deep_place(self) -> usize
        ensures { result ≡ deep_place self.rights self.rows self.reservoirs }
    {
        self.rows_end() + self.reservoirs
    }

    // Where a report ends, which is its length.
    pub fn report_end(self) -> usize
        ensures { result ≡ report_end self.rights self.rows self.reservoirs }
    {
        self.deep_place() + 1
    }
}
