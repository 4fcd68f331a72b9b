// The places of a board. It is a flat list of numbers, and so is a report, since C lends, keeps and reads them so.
// Each function asks that its number is in range: a right's (or one past the last), a row's, a month's. A type for such a number would be made at
// each call under the same condition, and be taken apart in the next line.
ghost use Rattle.std.specs.Prelude.{◌≡◌, ◌≤◌, ◌<◌};
ghost use Rattle.places.specs.Board.{storage_place, taken_place, dues_of, due_place, word_place};

// The numbers of a board.
pub const BOARD_LENGTH: usize = 1226;

// The month of the year that comes next.
pub const MONTH: usize = 0;

// The word of one-fill marks.
pub const MARKS: usize = 9;

// The first of the dues, and the dues of a row.
pub const DUES: usize = 266;

pub const MONTHS_DUE: usize = 11;

// The first of the short words.
pub const WORDS: usize = 970;

// The storage of reservoir v.
pub fn storage_place(v: usize) -> usize
    requires { v < 8 }
    ensures { result ≡ storage_place v }
{
    1 + v
}

// What right i has stored since October.
pub fn taken_place(i: usize) -> usize
    requires { i ≤ 256 }
    ensures { result ≡ taken_place i }
{
    10 + i
}

// The first due of row w; of 64, where the dues end.
pub fn dues_of(w: usize) -> usize
    requires { w ≤ 64 }
    ensures { result ≡ dues_of w }
{
    DUES + MONTHS_DUE * w
}

// What arrives at row w, k months after the coming one.
pub fn due_place(w: usize, k: usize) -> usize
    requires { (w < 64) × (k < 11) }
    ensures { result ≡ due_place w k }
{
    dues_of(w) + k
}

// In which months of this water year right i was short, as the bits of a word.
pub fn word_place(i: usize) -> usize
    requires { i ≤ 256 }
    ensures { result ≡ word_place i }
{
    WORDS + i
}
