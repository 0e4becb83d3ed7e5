// Number functions of whole rows, written as passes that a compiler can make vector code, each equal
// to the function of `numbers` at every element. They stand above the laws of floats, which their
// proofs use.
#![tactic(auto)]

pub mod ln_1p_row;
pub mod narrow_row;
pub mod passes;
pub mod root_row;
