// What engine_replay makes of a line of its list: the sound that is heard, and what is wrong with it.
// Below that program, so that only the calls are proved after kistovab.
#![tactic(auto)]

pub mod faults;
pub mod sound;
