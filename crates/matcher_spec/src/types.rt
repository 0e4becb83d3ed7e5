// What a search takes and gives.
use crate::limits::CANDIDATES_MOST;
use few::Few;

// What a search knows of its reference besides the buffers.
#[derive(Clone, Copy)]
pub struct Reference {
    pub bands: usize,
    pub frames: usize,
    pub start_ms: f64,
    pub hop_ms: f64,
}

// A candidate maps capture time to reference time by adding `offset_ms`.
#[derive(Clone, Copy, Default)]
pub struct Candidate {
    pub offset_ms: f64,
    pub score: f64,
    pub first_half_score: f64,
    pub second_half_score: f64,
    pub recent_score: f64,
}

// What a search finds: at most 8 candidates, the best first.
pub type MatchResult = Few<Candidate, CANDIDATES_MOST>;
