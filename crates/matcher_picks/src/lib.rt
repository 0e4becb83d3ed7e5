// What is picked: peaks of scores, and candidates in order. Below the matcher and the engine.
#![tactic(auto)]

pub mod candidates;
pub mod peaks;
