// What returns of a diversion: its split over the months of a delay pattern, over the return points, to the river and to the dues.
#![tactic(auto)]

pub mod returning;
pub mod split;
