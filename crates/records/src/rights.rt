// The records of rights.
ghost use Rattle.std.specs.Prelude.{◌≡◌, ◌<◌};
ghost use Rattle.records.specs.Records.{right_count, kind_byte, kind_named, right_record, return_row, return_percent};

use numbers::bytes::{le16, le32};

// What a right is: direct flow; project, with a reservoir behind it; instream flow; storage.
#[derive(Clone, Copy, Debug, PartialEq, Eq)]
pub enum Kind {
    Direct,
    Project,
    Instream,
    Storage,
}

// The first 20 bytes of a right's record. Its amounts and return points are read where they stand, when they are asked for. In
// `reservoir` and `pattern` 255 is document 01's number for none, kept as it stands: a rule of the file says by the right's kind and
// points whether 255 is asked for or forbidden.
#[derive(Clone, Copy)]
pub struct RightRecord {
    pub permit: u32,
    pub date: u32,
    pub kind: Kind,
    pub row: u8,
    pub reservoir: u8,
    pub efficiency: u8,
    pub pattern: u8,
    pub points: u8,
    pub months: u16,
    pub limit: u32,
}

// The byte that says a right's kind, as it stands in the file.
#[tactic(auto, unfolding(crate::specs::Records::kind_byte))]
pub fn kind_byte(rights: &[u8], i: usize) -> u8
    requires { i < right_count rights.now }
    ensures { result ≡ kind_byte rights.now i }
{
    rights[76 * i + 8]
}

// The kind that a byte stands for. Any byte has one, so that what reads a record by its place need not be told that its byte was judged: the rules
// of the file let no byte through but 1 to 4.
impl From<u8> for Kind {
    ghost from_gives = { λ byte kind. kind ≡ kind_named byte };

    #[tactic(auto, unfolding(crate::specs::Records::kind_named))]
    fn from(byte: u8) -> Kind {
        match byte {
            1 => Kind::Direct,
            2 => Kind::Project,
            3 => Kind::Instream,
            _ => Kind::Storage,
        }
    }
}

#[tactic(auto, unfolding(crate::specs::Records::right_record))]
pub fn right_at(rights: &[u8], i: usize) -> RightRecord
    requires { i < right_count rights.now }
    ensures { result ≡ right_record rights.now i }
{
    let at = 76 * i;
    let kind = Kind::from(kind_byte(rights, i));
    RightRecord {
        permit: le32(rights, at),
        date: le32(rights, at + 4),
        kind,
        row: rights[at + 9],
        reservoir: rights[at + 10],
        efficiency: rights[at + 11],
        pattern: rights[at + 12],
        points: rights[at + 13],
        months: le16(rights, at + 14),
        limit: le32(rights, at + 16),
    }
}

// The row of return point k. It and the next differ in a number, which one function would be told at each call in place of a
// name; the definitions have both names.
#[tactic(auto, unfolding(crate::specs::Records::return_row))]
pub fn return_row(rights: &[u8], i: usize, k: usize) -> u8
    requires { (i < right_count rights.now) × (k < 4) }
    ensures { result ≡ return_row rights.now i k }
{
    rights[76 * i + 68 + 2 * k]
}

// The percent of return point k.
#[tactic(auto, unfolding(crate::specs::Records::return_percent))]
pub fn return_percent(rights: &[u8], i: usize, k: usize) -> u8
    requires { (i < right_count rights.now) × (k < 4) }
    ensures { result ≡ return_percent rights.now i k }
{
    rights[76 * i + 69 + 2 * k]
}
