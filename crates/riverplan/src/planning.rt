// A plan: months run and printed one after another, and boards saved on the way to come back to. Each answer is printed in a line.
ghost use Rattle.std.specs.Prelude.{◌≡◌, ◌≤◌, length};
ghost use Rattle.store.specs.Calls.{save_of, recall_of, drop_of};

use crate::listed::list_months;
use crate::saying::ask;
use printing::output::write;
use printing::saying::{say, say_stock};
use std::io;
use store::{recall, save};

// The basin, the store of named boards, and the board that the next month is run on, each as the calls take it.
#[derive(Drop)]
pub struct Plan<'a> {
    pub file: &'a [u8],
    pub store: &'a mut [u8],
    pub board: &'a mut [u64],
}

impl Plan<'_> {
    // The present board is saved.
    pub fn save<R: Print>(&mut self, rt: &R, what: &[u8], name: &[u8]) -> io::Result<()>
        ensures saved { self.new.store.now ≡ (save_of self.old.store.now name.now self.old.board.now).store }
        ensures kept { self.new.board.now ≡ self.old.board.now }
    {
        let store = &mut *self.store;
        let board = &mut *self.board;
        say(rt, what, save(store, name, board))
    }

    // The present board is the one recalled.
    pub fn recall<R: Print>(&mut self, rt: &R, what: &[u8], name: &[u8]) -> io::Result<()>
        ensures recalled { self.new.board.now ≡ (recall_of self.old.store.now name.now self.old.board.now).board }
        ensures kept { self.new.store.now ≡ self.old.store.now }
    {
        let store = &mut *self.store;
        let board = &mut *self.board;
        say(rt, what, recall(store, name, board))
    }

    // All three calls of a store with one name.
    pub fn ask<R: Print>(&mut self, rt: &R, what: &[u8], name: &[u8]) -> io::Result<()>
        ensures store { self.new.store.now ≡ (drop_of (save_of self.old.store.now name.now self.old.board.now).store name.now).store }
        ensures board { self.new.board.now ≡ (recall_of (save_of self.old.store.now name.now self.old.board.now).store name.now self.old.board.now).board }
    {
        let store = &mut *self.store;
        let board = &mut *self.board;
        ask(rt, what, store, name, board)
    }

    pub fn say_stock<R: Print>(&self, rt: &R) -> io::Result<()> {
        say_stock(rt, self.file, self.board)
    }

    // The months of the sheets from the present board, as list_months lists them, printed.
    pub fn print_months<'t, R: Print + Eprint>(
        &mut self,
        rt: &R,
        sheets: &[u8],
        first: u32,
        out: &'t mut [u8],
    ) -> &'t [u8]
        ensures { length result.now ≤ length out.old }
    {
        let board = &mut *self.board;
        let text = list_months(self.file, sheets, first, board, out);
        let _ = write(rt, text);
        text
    }
}
