// The check that accepts or refuses a basin file (document 01). The checks of reservoirs, patterns and rights are each the library's search for
// the first place at fault: one function for them, lent the rule and the refusal as closures, would be called in as many words.
#![tactic(auto)]

pub mod check;
pub mod patterns;
pub mod reservoirs;
pub mod rights;
pub mod stations;
