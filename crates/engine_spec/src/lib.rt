// The engine: its types and the names of its numbers. The definitions of opening, submission and
// support age, and the lock guarantee over them, stand in specs/; the code stands in the crates
// above.
#![tactic(auto)]

pub mod lent;
pub mod thresholds;
pub mod types;
