// A load for test benches: its definition, and what is proved of it. Statements in specs/, proofs in
// proofs/; the code stands in the crate above.
#![tactic(auto)]

pub mod types;
