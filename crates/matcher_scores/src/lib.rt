// Scores of places: the loops that take nearly all of a search's time. Below the matcher, which
// alone calls it.
#![tactic(auto)]

mod bands;
mod blocks;
pub mod scores;
