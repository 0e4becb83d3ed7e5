// What the replay programs share: lists of lines, digests, and sounds from a few numbers.
#![tactic(auto)]

pub mod digest;
pub mod lines;
pub mod sound;
