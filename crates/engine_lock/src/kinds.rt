// What the lock rules hand on.
use engine_spec::types::{Hypothesis, Lock, Reached, RecordedMs};
use matcher_spec::types::MatchResult;

#[derive(Clone, Copy)]
pub struct Tracked {
    pub accepted: Option<Hypothesis>,
    pub supported: bool,
    pub innovation: Option<f64>,
    pub found: MatchResult,
}

// What a whole search leaves to be judged: the window's evidence time and endpoint, which milestones
// are there, pending and the track before it, and what it found.
#[derive(Clone, Copy)]
pub struct WholeSearch {
    pub evidence: RecordedMs,
    pub endpoint: RecordedMs,
    pub reached: Reached,
    pub pending: Option<Hypothesis>,
    pub tracked: Tracked,
    pub found: MatchResult,
}

#[derive(Clone, Copy)]
pub struct Searched {
    pub lock: Lock,
    pub reached: Reached,
    pub global: bool,
    pub found: MatchResult,
    pub supported: bool,
    pub innovation: Option<f64>,
}
