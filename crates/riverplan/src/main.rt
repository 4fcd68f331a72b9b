// Plans on the Provo River, water year 1967: a dry spring is tried from March on, and then March is returned to, as if nothing had been tried.
// Afterwards the store of named boards is asked for what it turns down. Each answer is printed.
#![tactic(auto)]

use entries::copies::STORE_LENGTH;
use files::{FILE_ROOM, read_whole};
use places::board::BOARD_LENGTH;
use planning::Plan;
use std::io;

mod listed;
mod planning;
mod saying;
mod trial;
mod turned_down;

// The Provo's stations, and the bytes of a sheet, of the sheets from October to February, and of a year's.
const STATIONS: usize = 18;

const SHEET: usize = 4 * STATIONS;

const WINTER: usize = 5 * SHEET;

const YEAR: usize = 12 * SHEET;

// Room for the sheets of a year.
const SHEETS_ROOM: usize = 4096;

fn plan<R: Print + Eprint>(rt: &R, file: &[u8], year: &[u8], dry: &[u8]) -> io::Result<()> {
    if year.len() < YEAR {
        return Ok(());
    }
    let mut store = [0; STORE_LENGTH];
    let mut board = [0; BOARD_LENGTH];
    let mut plan = Plan {
        file,
        store: &mut store,
        board: &mut board,
    };
    let (winter, spring) = year.split_at(WINTER);
    trial::try_dry(rt, &mut plan, winter, spring, dry)?;
    turned_down::call(rt, &mut plan, spring)
}

fn main(rt: HostRuntime) -> io::Result<()> {
    let mut file_space = [0; FILE_ROOM];
    let file = read_whole(&rt, b"provo.basin.bin", &mut file_space);
    let mut year_space = [0; SHEETS_ROOM];
    let year = read_whole(&rt, b"provo.months.bin", &mut year_space);
    let mut dry_space = [0; SHEETS_ROOM];
    let dry = read_whole(&rt, b"dry.months.bin", &mut dry_space);
    plan(&rt, file, year, dry)
}
