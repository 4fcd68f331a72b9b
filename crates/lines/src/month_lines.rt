// The lines of a month: one for each right, and the end line. The lines of rights are lent the body of rights alone, and ask for its bound.
ghost use Rattle.std.specs.Prelude.{◌≡◌, List, ℕ, ◌^◌, ◌≤◌, ◌<◌, length, sum};
ghost use Rattle.places.specs.Report.{lines_end};
ghost use Rattle.records.specs.Records.{right_count, right_of, rights_of, bodies as basin_by};
ghost use Rattle.listing.specs.Listing.{right_line, right_lines, end_line, month_text};
ghost use Rattle.lines.specs.Texts.{room_of};
ghost use Rattle.lines.specs.Putting.{most_text, CanList, Put};

use crate::text::Text;
use boards::sums::{due_sum, storage_sum};
use numbers::bytes::le32;
use places::board::BOARD_LENGTH;
use places::report::{FROM_STORAGE, REASON, STATION, line_place};
use records::bodies::Bodies;

// The most bytes that the text of a month has.
pub const MOST_TEXT: usize = 32365;

// Of a right's record only the permit is read.
fn put_right(text: &mut Text, month: u64, rights: &[u8], report: &[u64], i: usize)
    requires { (126 ≤ room_of text.old) × (i < right_count rights.now) × (right_count rights.now ≤ 256) × (lines_end (right_count rights.now) ≤ length report.now) }
    ensures { Put 126 (right_line month (right_of rights.now i) report.now i) text.old text.new }
{
    let line = line_place(i);
    text.line(&[
        month,
        u64::from(le32(rights, 76 * i)),
        report[line],
        report[line + FROM_STORAGE],
        report[line + REASON],
        report[line + STATION],
    ]);
}

// The lines of all rights, by index: by the parts of both lists (`chunks_exact` and `zip`) it proves too, but a listed month of the largest basin
// takes 2.3 in a hundred more instructions. By the parts of the rights alone the report would still go by index, which is no plainer.
fn put_rights(text: &mut Text, month: u64, rights: &[u8], report: &[u64])
    requires { (32256 ≤ room_of text.old) × (right_count rights.now ≤ 256) × (lines_end (right_count rights.now) ≤ length report.now) }
    ensures { Put 32256 (right_lines month (rights_of rights.now) report.now (right_count rights.now)) text.old text.new }
{
    let n = rights.len() / 76;
    for i in 0..n {
        put_right(text, month, rights, report, i);
    }
}

// What the reservoirs lost, together.
fn evaporation_sum(losses: &[u64]) -> u64
    requires { sum losses.now < 2 ^ 64 }
    ensures { result ≡ sum losses.now }
{
    losses.iter().sum()
}

fn put_end(text: &mut Text, month: u64, outflow: u64, evaporation: u64, storage: u64, pending: u64)
    requires { 109 ≤ room_of text.old }
    ensures { Put 109 (end_line month outflow evaporation storage pending) text.old text.new }
{
    text.number(month);
    text.push(b" end ");
    text.line(&[outflow, evaporation, storage, pending]);
}

// The whole month, by its report and the board that it left.
pub fn put_month(
    text: &mut Text,
    month: u64,
    bodies: &Bodies<'_>,
    board: &[u64; BOARD_LENGTH],
    report: &[u64],
)
    requires { CanList bodies.now board.now report.now × (most_text ≤ room_of text.old) }
    ensures { let b = bodies.now in (ps : List ℕ) → Put most_text (month_text (basin_by b.stations.now b.reservoirs.now ps b.rights.now) month report.now board.now) text.old text.new }
{
    let shape = bodies.shape();
    put_rights(text, month, bodies.rights, report);
    let outflow = report[shape.flow_place(shape.rows - 1)];
    let evaporation = evaporation_sum(&report[shape.rows_end()..shape.deep_place()]);
    let storage = storage_sum(shape.reservoirs, board);
    let pending = due_sum(shape.rows, board);
    put_end(text, month, outflow, evaporation, storage, pending);
}
