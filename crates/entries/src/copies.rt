// A board copied into its entry of a store, and back. The numbers go by way of an array that nothing else can reach, so that the compiler sees that
// the two lists cannot meet in it: it then makes one move of all the bytes and keeps no array. A loop from list to list moves two numbers at a time. The numbers go by their
// places: of what is written through a `zip` of parts that are lent a proof knows nothing.
ghost use Rattle.std.specs.Prelude.{◌≡◌, ◌<◌};
ghost use Rattle.general.specs.Parts.{over};
ghost use Rattle.entries.specs.Entries.{entry_count, board_start, board_at, bytes_of};

use crate::names::{ENTRIES, NAME_LENGTH};
use numbers::bytes::{le64, put64};
use places::board::BOARD_LENGTH;

pub const BOARD_BYTES: usize = 8 * BOARD_LENGTH;

// Four names and four boards.
pub const STORE_LENGTH: usize = ENTRIES * NAME_LENGTH + ENTRIES * BOARD_BYTES;

// Where the board of an entry begins.
fn board_start(entry: usize) -> usize
    requires { entry < entry_count }
    ensures { result ≡ board_start entry }
{
    ENTRIES * NAME_LENGTH + BOARD_BYTES * entry
}

fn put_numbers(store: &mut [u8; STORE_LENGTH], entry: usize, numbers: [u64; BOARD_LENGTH])
    requires { entry < entry_count }
    ensures { store.new ≡ over store.old (board_start entry) (bytes_of numbers) }
{
    let start = board_start(entry);
    for (k, &number) in numbers.iter().enumerate() {
        put64(store, start + 8 * k, number);
    }
}

pub fn write_board(store: &mut [u8; STORE_LENGTH], entry: usize, board: &[u64; BOARD_LENGTH])
    requires { entry < entry_count }
    ensures { store.new ≡ over store.old (board_start entry) (bytes_of board.now) }
{
    put_numbers(store, entry, *board);
}

fn numbers_at(store: &[u8; STORE_LENGTH], entry: usize) -> [u64; BOARD_LENGTH]
    requires { entry < entry_count }
    ensures { result ≡ board_at store.now entry }
{
    let start = board_start(entry);
    let mut numbers = [0; BOARD_LENGTH];
    for (k, number) in numbers.iter_mut().enumerate() {
        *number = le64(store, start + 8 * k);
    }
    numbers
}

pub fn read_board(store: &[u8; STORE_LENGTH], entry: usize, board: &mut [u64; BOARD_LENGTH])
    requires { entry < entry_count }
    ensures { board.new ≡ board_at store.now entry }
{
    *board = numbers_at(store, entry);
}
