// The rules of the river as definitions, with the theorems about them. Of code there is only the list of refusals, which definitions and calls
// share.
#![tactic(auto)]

// Why a call turns down what it was lent, with the first at fault. A file is turned down by its layout or by one of its records; a call beside
// by the lengths of its lists, by an impossible board, or by runoff over its limit at a row; a runoff book by its layout, or by the year that
// it does not list; a store by the name of a board, or for want of an empty entry.
#[derive(Clone, Copy, Debug, PartialEq, Eq)]
pub enum Refusal {
    Layout,
    Station(usize),
    Reservoir(usize),
    Pattern(usize),
    Right(usize),
    Lists,
    Board,
    Runoff(usize),
    Book,
    Year,
    Name,
    Full,
}
