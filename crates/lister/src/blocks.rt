// A block of the months file: as many of its parts as there is room for, one after another.
ghost use Rattle.std.specs.Prelude.{◌≡◌};
ghost use Rattle.records.specs.Records.{basin_of};
ghost use Rattle.listing.specs.Run.{sheet_bytes};
ghost use Rattle.lister.specs.Lister.{CanListBlock, BlockListed, SheetsListed, Moves};

use crate::Listing;
use lines::month_lines::MOST_TEXT;
use records::bodies::Bodies;
use sheets::sheet_size;

impl<'a, 't> Listing<'a, 't> {
    // The bytes of one sheet.
    pub fn sheet_size(&self) -> usize
        ensures { result ≡ sheet_bytes (basin_of self.now.file.now) }
    {
        sheet_size(Bodies::of(self.file).rows())
    }

    // The whole sheets of a block, until one ends the listing or the next month's text might not fit. Answers how many bytes they have.
    fn list_sheets(&mut self, block: &[u8]) -> usize
        requires { CanListBlock block.now self.old }
        ensures { SheetsListed block.now self.old self.new result }
    {
        let size = self.sheet_size();
        let mut used = 0;
        for sheet in block.chunks_exact(size) {
            if self.room() < MOST_TEXT {
                return used;
            }
            self.list_part(sheet);
            used += size;
            if !self.more {
                return used;
            }
        }
        used
    }

    // The parts of a block: its whole sheets and, where the file ends with it, what follows them, if only nothing, which ends the listing. There
    // is room for one month at least, so that each call goes on. Answers how many bytes are listed, and not the rest, since the promise speaks of a
    // place in the block.
    pub fn list_block(&mut self, block: &[u8], last: bool) -> usize
        requires { CanListBlock block.now self.old }
        ensures { BlockListed block.now last 0 self.old self.new result × Moves (basin_of self.old.file.now) block.now last self.new result }
    {
        let size = self.sheet_size();
        let used = self.list_sheets(block);
        let rest = &block[used..];
        if last && self.more && rest.len() < size && MOST_TEXT <= self.room() {
            self.list_part(rest);
            return block.len();
        }
        used
    }
}
