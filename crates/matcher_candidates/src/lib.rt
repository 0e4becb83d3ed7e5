// The candidate of a range of places. Below the matcher, whose whole and local searches share it.
#![tactic(auto)]

pub mod candidate;
pub mod comparison;
