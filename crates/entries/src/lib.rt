// The four entries of a store of named boards: their names compared, looked up and written, their boards copied in and out. An entry is its
// number, below four, as a right is its place: a look-up answers it, and no test is run for it again. The store is flat bytes, as C lends it.
#![tactic(auto)]

pub mod copies;
pub mod names;
