// The calls on lent numbers, as C has them.
#![tactic(auto)]

pub mod export;
