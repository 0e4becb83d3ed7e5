// The layout of a state and a snapshot in words (specs/Layout.antt), and the words of values.
#![tactic(auto)]

pub mod candidates;
pub mod options;
pub mod rows;
pub mod word;
