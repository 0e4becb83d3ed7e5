// Dot products, of one place and of a row of places: half of a search's time. Below matcher_scores,
// which alone calls it.
#![tactic(auto)]

pub mod dot;
pub mod sums;
pub mod tiles;
