// One step of a listing: what the next part of the months file adds.
ghost use Rattle.std.specs.Prelude.{◌≡◌, ◌≤◌, length};
ghost use Rattle.rules.specs.Basin.{rows};
ghost use Rattle.records.specs.Records.{basin_of};
ghost use Rattle.answers.specs.Answers.{answer_of};
ghost use Rattle.listing.specs.Run.{sheet_bytes};
ghost use Rattle.lines.specs.Texts.{room_of};
ghost use Rattle.lines.specs.Putting.{most_text};
ghost use Rattle.lister.specs.Lister.{text_of, CanStep, Stepped, Refused};

use crate::Listing;
use crate::texts::{month_in, refusal_in};
use answers::Answer;
use month::run::run_sheet;
use records::bodies::Bodies;
use rules::Refusal;
use sheets::{decode, sheet_size};

impl<'a, 't> Listing<'a, 't> {
    // A refusal is the last line of a listing.
    pub fn refuse(&mut self, answer: Answer)
        requires { most_text ≤ room_of (text_of self.old) }
        ensures { Refused (answer_of answer) self.old self.new }
    {
        self.written = refusal_in(self.list, self.written, answer);
        self.more = false;
    }

    // A whole sheet: its month is run and its lines are put, or it is turned down. The numbers of the sheet go into the list runoff.
    fn list_sheet(&mut self, sheet: &[u8], runoff: &mut [u32])
        requires { CanStep self.old × (length sheet.now ≡ sheet_bytes (basin_of self.old.file.now)) × (length runoff.old ≡ rows (basin_of self.old.file.now)) }
        ensures { Stepped sheet.now self.old self.new }
    {
        let bodies = Bodies::of(self.file);
        let board = &mut *self.board;
        let report = &mut *self.report;
        decode(sheet, runoff);
        match run_sheet(&bodies, runoff, board, report) {
            Ok(_) => {
                self.written = month_in(
                    self.list,
                    self.written,
                    self.months,
                    &bodies,
                    board,
                    report,
                );
                self.months += 1;
                self.more = true;
            }
            Err(refusal) => self.refuse(Answer::from(refusal)),
        }
    }

    // A part of the months file: nothing, where the file is at its end; a sheet; or too little for one, which is refusal 6.
    pub fn list_part(&mut self, part: &[u8])
        requires { CanStep self.old }
        ensures { Stepped part.now self.old self.new }
    {
        if part.is_empty() {
            self.more = false;
            return;
        }
        let n = Bodies::of(self.file).rows();
        if part.len() != sheet_size(n) {
            self.refuse(Answer::from(Refusal::Lists));
            return;
        }
        // Room for the longest sheet, without a heap.
        let mut runoff = [0u32; 64];
        self.list_sheet(part, &mut runoff[..n]);
    }
}
