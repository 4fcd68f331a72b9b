// The calls as C has them, each list as a pointer and a length. The promises are those of the calls.
ghost use Rattle.std.specs.Prelude.{◌≡◌};
ghost use Rattle.filecheck.specs.Check.{check_of};
ghost use Rattle.answers.specs.Answers.{answer_of, verdict_answer, settled};
ghost use Rattle.fresh.specs.Fresh.{fresh_of, fresh_told};
ghost use Rattle.stock.specs.Months.{short_months_of, months_told};
ghost use Rattle.stock.specs.Stock.{stock_of, stock_told};
ghost use Rattle.month.specs.Month.{MonthMeets, outcome_of};
ghost use Rattle.book.specs.Book.{lookup_refusal};
ghost use Rattle.years.specs.Years.{YearMeets};
ghost use Rattle.store.specs.Calls.{stored, recalled, save_of, recall_of, drop_of};

use answers::Answer;
use book::find::find_year;
use filecheck::check::check;
use fresh::fresh;
use month::month;
use stock::months::{Months, short_months};
use stock::{Sums, stock};
use store::{drop_name, recall, save};
use years::run::run_year;

// The refusal's number, or 0 where the file is accepted.
#[unsafe(no_mangle)]
pub extern "C" fn river_check(file: &[u8]) -> u32
    ensures { result ≡ (verdict_answer (check_of file.now)).number }
{
    // At most 12: C has this number in 32 bits.
    Answer::from(check(file)).number as u32
}

// The number with the first at fault.
#[unsafe(no_mangle)]
pub extern "C" fn river_verdict(file: &[u8]) -> Answer
    ensures { answer_of result ≡ verdict_answer (check_of file.now) }
{
    Answer::from(check(file))
}

#[unsafe(no_mangle)]
pub extern "C" fn river_fresh(file: &[u8], board: &mut [u64]) -> Answer
    ensures { fresh_told (answer_of result) board.new ≡ fresh_of file.now board.old }
{
    Answer::from(fresh(file, board))
}

#[unsafe(no_mangle)]
pub extern "C" fn river_month(
    file: &[u8],
    runoff: &[u32],
    board: &mut [u64],
    report: &mut [u64],
) -> Answer
    ensures { MonthMeets file.now runoff.now board.old report.old (outcome_of (answer_of result) board.new report.new) }
{
    Answer::from(month(file, runoff, board, report))
}

#[unsafe(no_mangle)]
pub extern "C" fn river_stock(file: &[u8], board: &[u64]) -> Sums
    ensures { stock_told result ≡ stock_of file.now board.now }
{
    Sums::from(stock(file, board))
}

// The right is given by its place in the list.
#[unsafe(no_mangle)]
pub extern "C" fn river_short_months(file: &[u8], board: &[u64], right: usize) -> Months
    ensures { months_told result ≡ short_months_of file.now board.now right }
{
    Months::from(short_months(file, board, right))
}

// Whether a book lists a year, for this basin.
#[unsafe(no_mangle)]
pub extern "C" fn river_find_year(file: &[u8], book: &[u8], year: u32) -> Answer
    ensures { answer_of result ≡ settled (lookup_refusal file.now book.now year) }
{
    Answer::from(find_year(file, book, year).map(|_| ()))
}

#[unsafe(no_mangle)]
pub extern "C" fn river_run_year(
    file: &[u8],
    book: &[u8],
    year: u32,
    board: &mut [u64],
    reports: &mut [u64],
) -> Answer
    ensures { YearMeets file.now book.now year board.old reports.old (outcome_of (answer_of result) board.new reports.new) }
{
    Answer::from(run_year(file, book, year, board, reports))
}

// No basin is taken: a board of any numbers is kept under the name, in the bytes of the store.
#[unsafe(no_mangle)]
pub extern "C" fn river_save(store: &mut [u8], name: &[u8], board: &[u64]) -> Answer
    ensures { stored (answer_of result) store.new ≡ save_of store.old name.now board.now }
{
    Answer::from(save(store, name, board))
}

#[unsafe(no_mangle)]
pub extern "C" fn river_recall(store: &[u8], name: &[u8], board: &mut [u64]) -> Answer
    ensures { recalled (answer_of result) board.new ≡ recall_of store.now name.now board.old }
{
    Answer::from(recall(store, name, board))
}

#[unsafe(no_mangle)]
pub extern "C" fn river_drop(store: &mut [u8], name: &[u8]) -> Answer
    ensures { stored (answer_of result) store.new ≡ drop_of store.old name.now }
{
    Answer::from(drop_name(store, name))
}
