// The C names under which a host written in Rust or C calls the libraries: one thin call each.
#![tactic(auto)]

pub mod matcher_calls;
pub mod numbers_calls;
pub mod rows_calls;
