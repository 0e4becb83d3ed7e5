// The number functions that matcher and engine rest on, each total and equal to a definition of
// specs/, which is written from document 01. Nothing above this crate looks at bits.
#![tactic(auto)]

pub mod constants;
pub mod exponential;
pub mod float;
pub mod logarithm;
pub mod narrow;
mod parts;
pub mod root;
pub mod whole;
