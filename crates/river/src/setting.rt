// The basin of a month.
use records::bodies::Bodies;
use records::network::RowsBelow;

// The basin as all turns of a month read it: the bodies of its file, the rows below, and the running sums of its patterns. The tables are lent,
// since tables of its own would be copies of those that were just made. That it describes a given basin is asked by each turn and is no part of the
// type: a stage of a turn needs the numbers alone.
#[derive(Clone, Copy)]
pub struct Setting<'a> {
    pub bodies: &'a Bodies<'a>,
    pub below: &'a RowsBelow,
    pub sums: &'a [[u8; 12]; 16],
}
