// The rules of the basin file, each a test on one record (document 01).
// A record is told by its body and its place there (`records`).
#![tactic(auto)]

pub mod reservoirs;
pub mod rights;
pub mod stations;
