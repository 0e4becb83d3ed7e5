// Opening, which crate `engine` hands on under its own name.
#![tactic(auto)]

pub mod opening;
