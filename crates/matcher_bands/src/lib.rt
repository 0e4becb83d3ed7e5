// Bands of a reference or a window: which timelines and values are accepted, centring, energies,
// averages by fours. Below the matcher, which alone calls it.
#![tactic(auto)]

pub mod centring;
pub mod energy;
mod rows;
pub mod timeline;
