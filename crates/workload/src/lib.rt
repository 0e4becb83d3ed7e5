// A load for test benches: a synthetic reference or window from a seed, the same numbers on every
// machine and in every language. Users call `load::fill`.
#![tactic(auto)]

pub mod load;
pub mod refusals;
