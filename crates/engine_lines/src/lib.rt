// Lines of engine_replay's list: what each asks of the C calls, and what they answer to it.
#![tactic(auto)]

pub mod answers;
pub mod host;
pub mod line;
pub mod opening;
pub mod submission;
