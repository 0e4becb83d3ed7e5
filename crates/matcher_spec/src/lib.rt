// The matcher: its types, definitions of index and searches, and their theorems. Statements in
// specs/, proofs in proofs/; the code stands in the crates above.
#![tactic(auto)]

pub mod constants;
pub mod lent;
pub mod limits;
pub mod types;
