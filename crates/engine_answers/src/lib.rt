// What is handed back: the answers to a window, with the milestones stamped and the next engine made,
// and the fresh engine that a list of submissions starts from.
#![tactic(auto)]

pub mod answers;
pub mod fresh;
pub mod milestones;
