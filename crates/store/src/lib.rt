// Named boards to come back to: a board saved under a name in bytes that the caller lends, recalled from there, and its name dropped. Store, name and
// board are lent one by one, as C lends them.
#![tactic(auto)]

ghost use Rattle.std.specs.Prelude.{◌≡◌, IfOk, eqb, length};
ghost use Rattle.answers.specs.Answers.{refusal_of, verdict_answer};
ghost use Rattle.entries.specs.Entries.{name_length};
ghost use Rattle.store.specs.Calls.{name_refusal, stored, recalled, save_of, recall_of, drop_of};

use entries::copies::{STORE_LENGTH, read_board, write_board};
use entries::names::{NAME_LENGTH, find, place_for, same_name, write_name};
use places::board::BOARD_LENGTH;
use rules::Refusal;

// The bytes of a name that a board may have: eight, and not all of them zero.
fn id_of(name: &[u8]) -> Result<[u8; NAME_LENGTH], Refusal>
    ensures refused { refusal_of result ≡ name_refusal (eqb (length name.now) name_length) name.now }
    ensures same { IfOk result (λ id. id ≡ name.now) }
{
    let Some(&id) = name.as_array::<NAME_LENGTH>() else {
        return Err(Refusal::Lists);
    };
    if same_name(id, [0; 8]) {
        return Err(Refusal::Name);
    }
    Ok(id)
}

// All that is refused is refused before the first store.
pub fn save(store: &mut [u8], name: &[u8], board: &[u64]) -> Result<(), Refusal>
    ensures { stored (verdict_answer result) store.new ≡ save_of store.old name.now board.now }
{
    let Some(store) = store.as_mut_array::<STORE_LENGTH>() else {
        return Err(Refusal::Lists);
    };
    let Some(board) = board.as_array::<BOARD_LENGTH>() else {
        return Err(Refusal::Lists);
    };
    let id = id_of(name)?;
    let entry = place_for(store, id).ok_or(Refusal::Full)?;
    write_name(store, entry, id);
    write_board(store, entry, board);
    Ok(())
}

pub fn recall(store: &[u8], name: &[u8], board: &mut [u64]) -> Result<(), Refusal>
    ensures { recalled (verdict_answer result) board.new ≡ recall_of store.now name.now board.old }
{
    let Some(store) = store.as_array::<STORE_LENGTH>() else {
        return Err(Refusal::Lists);
    };
    let Some(board) = board.as_mut_array::<BOARD_LENGTH>() else {
        return Err(Refusal::Lists);
    };
    let id = id_of(name)?;
    let entry = find(store, id).ok_or(Refusal::Name)?;
    read_board(store, entry, board);
    Ok(())
}

// The board's bytes stay as they are.
pub fn drop_name(store: &mut [u8], name: &[u8]) -> Result<(), Refusal>
    ensures { stored (verdict_answer result) store.new ≡ drop_of store.old name.now }
{
    let Some(store) = store.as_mut_array::<STORE_LENGTH>() else {
        return Err(Refusal::Lists);
    };
    let id = id_of(name)?;
    let entry = find(store, id).ok_or(Refusal::Name)?;
    write_name(store, entry, [0; 8]);
    Ok(())
}
