// Months listed from whatever board: a board that was recalled may be any, so it is judged before a month is run on it.
ghost use Rattle.std.specs.Prelude.{◌≤◌, length};

use answers::Answer;
use lines::frame::put_refusal;
use lines::month_lines::MOST_TEXT;
use lines::text::Text;
use lister::Listing;
use places::report::MOST_REPORT;
use stock::stock;

// The lines of the months of all sheets for which there is room, counted from the first on; or the line of the board's refusal. Too little room lists
// nothing, which is printed as it is: no `Option`.
pub fn list_months<'t>(
    file: &[u8],
    sheets: &[u8],
    first: u32,
    board: &mut [u64],
    out: &'t mut [u8],
) -> &'t [u8]
    ensures { length result.now ≤ length out.old }
{
    if out.len() < MOST_TEXT {
        return &[];
    }
    match stock(file, board) {
        Ok(_) => {
            // A board of another length has no stock.
            let Some(board) = board.as_mut_array() else {
                return &[];
            };
            let mut report = [0u64; MOST_REPORT];
            let mut listing = Listing {
                file,
                board,
                report: &mut report,
                list: out,
                written: 0,
                months: u64::from(first),
                more: true,
            };
            listing.list_block(sheets, false);
            let Listing { list, written, .. } = listing;
            &list[..written]
        }
        Err(refusal) => {
            let mut text = Text::over(out);
            put_refusal(&mut text, Answer::from(refusal));
            text.into_bytes()
        }
    }
}
