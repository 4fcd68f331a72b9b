// The lines of a store's three calls with one name, and of a comparison.
ghost use Rattle.std.specs.Prelude.{◌≡◌};
ghost use Rattle.store.specs.Calls.{save_of, recall_of, drop_of};

use answers::Answer;
use std::io::{self, Write};
use store::{drop_name, recall, save};

// All three calls with one name, in a line. What is asked may be any bytes, as in `printing::saying`.
pub fn ask<R: Print>(
    rt: &R,
    what: &[u8],
    store: &mut [u8],
    name: &[u8],
    board: &mut [u64],
) -> io::Result<()>
    ensures store { store.new ≡ (drop_of (save_of store.old name.now board.old).store name.now).store }
    ensures board { board.new ≡ (recall_of (save_of store.old name.now board.old).store name.now board.old).board }
{
    let saved = Answer::from(save(store, name, board));
    let recalled = Answer::from(recall(store, name, board));
    let dropped = Answer::from(drop_name(store, name));
    rt.write_all(what)?;
    rt.write_all(b", save, recall, drop:")?;
    writeln!(io::writer(rt), " {saved} {recalled} {dropped}")
}

// Whether two texts, the first of so many bytes, are the same.
pub fn say_compared<R: Print>(rt: &R, bytes: usize, same: bool) -> io::Result<()> {
    let told = if same {
        " bytes, the same\n"
    } else {
        " bytes, another\n"
    };
    rt.write_all(b"as if nothing had been tried:")?;
    write!(io::writer(rt), " {bytes}")?;
    rt.write_all(told.as_bytes())
}
