// The text of a listing, as a `Text` tells it: what is asked of it, and lines put into its list.
ghost use Rattle.std.specs.Prelude.{◌≡◌, List, ℕ, ◌+◌, ◌≤◌, length};
ghost use Rattle.answers.specs.Answers.{answer_of};
ghost use Rattle.records.specs.Records.{bodies as basin_by};
ghost use Rattle.listing.specs.Listing.{refusal_line, month_text};
ghost use Rattle.lines.specs.Texts.{bytes_of, room_of};
ghost use Rattle.lines.specs.Putting.{most_text, CanList, PutAt};
ghost use Rattle.lister.specs.Lister.{text_of};

use crate::Listing;
use answers::Answer;
use lines::frame::put_refusal;
use lines::month_lines::put_month;
use lines::text::Text;
use places::board::BOARD_LENGTH;
use records::bodies::Bodies;

#[tactic(auto, unfolding(lines::specs::Texts::bytes_of, lines::specs::Texts::room_of))]
impl<'a, 't> Listing<'a, 't> {
    // What is written.
    pub fn bytes(&self) -> &[u8]
        ensures { result.now ≡ bytes_of (text_of self.now) }
    {
        &self.list[..self.written]
    }

    // For how many bytes more there is room.
    pub fn room(&self) -> usize
        ensures { result ≡ room_of (text_of self.now) }
    {
        self.list.len() - self.written
    }
}

// The line of a refusal, in the list of a text after its first `at` bytes. Answers how many the text has then.
pub(crate) fn refusal_in(list: &mut [u8], at: usize, answer: Answer) -> usize
    requires { at + 50 ≤ length list.old }
    ensures line { PutAt at (refusal_line (answer_of answer)) list.old list.new result }
    ensures within { result ≤ at + 50 }
{
    let mut text = Text::after(list, at);
    put_refusal(&mut text, answer);
    text.len
}

// The lines of a month, likewise.
pub(crate) fn month_in(
    list: &mut [u8],
    at: usize,
    month: u64,
    bodies: &Bodies<'_>,
    board: &[u64; BOARD_LENGTH],
    report: &[u64],
) -> usize
    requires { CanList bodies.now board.now report.now × (at + most_text ≤ length list.old) }
    ensures lines { let b = bodies.now in (ps : List ℕ) → PutAt at (month_text (basin_by b.stations.now b.reservoirs.now ps b.rights.now) month report.now board.now) list.old list.new result }
    ensures within { result ≤ at + most_text }
{
    let mut text = Text::after(list, at);
    put_month(&mut text, month, bodies, board, report);
    text.len
}
