// A state and a snapshot as words of a lent slice of u64, by engine_layout/specs/Layout.antt.
#![tactic(auto)]

pub mod snapshots;
pub mod states;
