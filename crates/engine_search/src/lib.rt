// The searches of a window, local and whole, and what the lock's rules make of them.
#![tactic(auto)]

pub mod kinds;
pub mod search;
