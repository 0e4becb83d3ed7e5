// What a search reads: the index of a reference, and the query of a window. Below the matcher, which
// hands both on.
#![tactic(auto)]

mod centred;
pub mod index;
pub mod query;
