// The matcher: fills an index from a reference and searches it for a window's place. Its functions
// equal the definitions of matcher_spec, which are written from document 01, and rest on what
// the crates below state. `index` and `query` are matcher_filling's.
#![tactic(auto)]

mod fronts;
pub mod lent;
pub mod local;
pub mod whole;

pub use matcher_filling::{index, query};
