// The start of a listing: its header, and the fresh board or the refusal of the file.
ghost use Rattle.std.specs.Prelude.{◌≤◌, ◌≡◌, length};
ghost use Rattle.lister.specs.Lister.{Opened};

use crate::Listing;
use answers::Answer;
use fresh::fresh;
use lines::frame::{put_header, put_refusal};
use lines::text::Text;
use places::board::BOARD_LENGTH;

impl<'a, 't> Listing<'a, 't> {
    // The text is put together in the list out.
    pub fn open(
        file: &'a [u8],
        board: &'a mut [u64; BOARD_LENGTH],
        report: &'a mut [u64],
        out: &'t mut [u8],
    ) -> Listing<'a, 't>
        requires { 82 ≤ length out.old }
        ensures same_board { result.board.ghost_name ≡ board.entry.ghost_name }
        ensures same_report { result.report.ghost_name ≡ report.entry.ghost_name }
        ensures same_list { result.list.ghost_name ≡ out.entry.ghost_name }
        ensures opened { Opened file.now board.old report.old out.old result }
    {
        let mut text = Text::over(out);
        put_header(&mut text);
        let more = match fresh(file, board) {
            Ok(()) => true,
            Err(refusal) => {
                put_refusal(&mut text, Answer::from(refusal));
                false
            }
        };
        let Text { list, len } = text;
        Listing {
            file,
            board,
            report,
            list,
            written: len,
            months: 0,
            more,
        }
    }
}
