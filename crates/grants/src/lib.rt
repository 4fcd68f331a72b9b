// What a right asks, what the river gives of it, and what is taken, stored and drawn.
#![tactic(auto)]

pub mod grants;
pub mod stages;
