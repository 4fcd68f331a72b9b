// What stands around the months: the header, and the line of a refusal.
ghost use Rattle.std.specs.Prelude.{◌≤◌};
ghost use Rattle.answers.specs.Answers.{answer_of};
ghost use Rattle.listing.specs.Listing.{refusal_line, header};
ghost use Rattle.lines.specs.Texts.{room_of};
ghost use Rattle.lines.specs.Putting.{Put};

use crate::text::Text;
use answers::Answer;

// The first line of every listing.
pub fn put_header(text: &mut Text)
    requires { 32 ≤ room_of text.old }
    ensures { Put 32 header text.old text.new }
{
    text.push(b"MONTH PERMIT RIVER STORE WHY AT\n");
}

// The word, the number and the place.
pub fn put_refusal(text: &mut Text, answer: Answer)
    requires { 50 ≤ room_of text.old }
    ensures { Put 50 (refusal_line (answer_of answer)) text.old text.new }
{
    text.push(b"refused ");
    text.line(&[answer.number, answer.place]);
}
