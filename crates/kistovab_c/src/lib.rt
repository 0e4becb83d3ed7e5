// The C names of crate kistovab, in a static library: each calls the function of its name there, under
// the same contract.
// Kept: twins, since a crate is a library or a static library, and engine_lines rests on kistovab.
#![tactic(auto)]

pub mod calls;
pub mod loads;
pub mod sizes;
pub mod stores;
