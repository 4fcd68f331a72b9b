// What a store turns down, and what it takes, from the store that the trial left: MARCH first, DRY second.
ghost use Rattle.std.specs.Prelude.{◌≤◌, length};

use crate::STATIONS;
use crate::planning::Plan;
use crate::saying::ask;
use entries::copies::STORE_LENGTH;
use entries::names::write_name;
use month::month;
use places::board::{BOARD_LENGTH, MONTH};
use places::report::MOST_REPORT;
use printing::saying::say;
use sheets::decode;
use std::io;
use store::{drop_name, save};

// Refusal 6: a list that is too short. Refusal 11: eight zero bytes are no name. The stock is still that of September.
fn refused<R: Print>(rt: &R, plan: &mut Plan) -> io::Result<()> {
    let mut small = [0u8; STORE_LENGTH - 1];
    let short = [0u64; BOARD_LENGTH - 1];
    ask(
        rt,
        b"a store of 39263 bytes",
        &mut small,
        b"MARCH   ",
        plan.board,
    )?;
    plan.ask(rt, b"a name of seven bytes", b"MARCH  ")?;
    plan.ask(rt, b"a name of zeros", &[0; 8])?;
    say(
        rt,
        b"save, board of 1225:",
        save(plan.store, b"MARCH   ", &short),
    )?;
    plan.say_stock(rt)
}

// Refusal 12: a store has four names. Refusal 11 again: a name that is not there can't be recalled nor dropped.
fn fifth_name<R: Print>(rt: &R, plan: &mut Plan) -> io::Result<()> {
    plan.save(rt, b"save APRIL:", b"APRIL   ")?;
    plan.save(rt, b"save MAY:", b"MAY     ")?;
    plan.ask(rt, b"JUNE, a fifth", b"JUNE    ")
}

// Once a name is dropped its place serves the fifth.
fn one_dropped<R: Print>(rt: &R, plan: &mut Plan) -> io::Result<()> {
    say(rt, b"drop DRY:", drop_name(plan.store, b"DRY     "))?;
    plan.recall(rt, b"recall DRY:", b"DRY     ")?;
    plan.save(rt, b"save JUNE:", b"JUNE    ")
}

// JUNE is renamed in the bytes. Of two equal names the earlier is meant, so the board of March is recalled and not that of September.
fn two_alike<R: Print>(rt: &R, plan: &mut Plan) -> io::Result<()> {
    if let Some(store) = plan.store.as_mut_array() {
        write_name(store, 1, *b"MARCH   ");
    }
    plan.recall(rt, b"recall MARCH, its name twice:", b"MARCH   ")?;
    plan.say_stock(rt)
}

// A board of a thirteenth month is kept like any other: only the month turns it down. It is made in two lines, as in `rivercalls`.
fn save_thirteenth<R: Print>(rt: &R, store: &mut [u8]) -> io::Result<()> {
    let mut thirteenth = [0u64; BOARD_LENGTH];
    thirteenth[MONTH] = 12;
    say(
        rt,
        b"save MAY, a board of a thirteenth month:",
        save(store, b"MAY     ", &thirteenth),
    )
}

// A recall, and the month from the board that it gives.
fn month_from<R: Print>(
    rt: &R,
    plan: &mut Plan,
    runoff: &[u32],
    what: &[u8],
    name: &[u8],
) -> io::Result<()> {
    let mut report = [0u64; MOST_REPORT];
    plan.recall(rt, what, name)?;
    let board = &mut *plan.board;
    say(rt, b"month:", month(plan.file, runoff, board, &mut report))
}

// March's runoff on the board of a thirteenth month, and then on March's own.
fn months<R: Print>(rt: &R, plan: &mut Plan, march: &[u8]) -> io::Result<()>
    requires { 72 ≤ length march.now }
{
    let mut runoff = [0u32; STATIONS];
    decode(march, &mut runoff);
    month_from(rt, plan, &runoff, b"recall MAY:", b"MAY     ")?;
    month_from(rt, plan, &runoff, b"recall MARCH:", b"MARCH   ")?;
    plan.say_stock(rt)
}

pub fn call<R: Print>(rt: &R, plan: &mut Plan, spring: &[u8]) -> io::Result<()>
    requires { 72 ≤ length spring.now }
{
    refused(rt, plan)?;
    fifth_name(rt, plan)?;
    one_dropped(rt, plan)?;
    two_alike(rt, plan)?;
    save_thirteenth(rt, plan.store)?;
    months(rt, plan, spring)
}
