// What a decision on a window sees, and what it decides.
use engine_spec::types::{Configuration, Lock, Reached, Settings, Verdict};
use matcher_spec::types::MatchResult;

// What is seen of an engine: of its milestones only which are there, so that no clock reading steers.
#[derive(Clone, Copy)]
pub struct Seen {
    pub configuration: Configuration,
    pub settings: Settings,
    pub reached: Reached,
    pub lock: Lock,
}

// All that a window decides.
#[derive(Clone, Copy)]
pub struct Decision {
    pub lock: Lock,
    pub reached: Reached,
    pub global: bool,
    pub found: MatchResult,
    pub verdict: Verdict,
}
