// Named places: a state is kept under one of eight names in a lent store, and given back. What that
// means stands in crate places_spec.
#![tactic(auto)]

pub mod store;
