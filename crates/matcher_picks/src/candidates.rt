// Candidates: their order, the 750 rule and the margin.
ghost use Rattle.std.specs.Prelude.{◌+◌, ◌<◌, length, [], ◌∷◌, ◌≡◌};
ghost use Rattle.matcher_spec.specs.Candidates.{crowded, eight_of, independent, insert, margin_of};

use matcher_spec::constants::APART_MS;
use matcher_spec::limits::CANDIDATES_MOST;
use matcher_spec::types::{Candidate, MatchResult};
use numbers::float::abs;

// No candidates.
pub fn nothing_found() -> MatchResult
    ensures { result.items ≡ [] }
{
    MatchResult::new()
}

// The candidates found, and blank ones behind the last.
pub fn eight_of(found: &MatchResult) -> [Candidate; CANDIDATES_MOST]
    ensures { result ≡ eight_of found.now.items }
{
    let mut eight = [Candidate::default(); CANDIDATES_MOST];
    eight[..found.len()].copy_from_slice(found);
    eight
}

// A candidate's five numbers, in order.
pub fn numbers_of(c: Candidate) -> [f64; 5]
    ensures { result ≡ c.offset_ms ∷ c.score ∷ c.first_half_score ∷ c.second_half_score ∷ c.recent_score ∷ [] }
{
    [
        c.offset_ms,
        c.score,
        c.first_half_score,
        c.second_half_score,
        c.recent_score,
    ]
}

// Puts c before the first candidate that scores lower.
pub fn insert_by_score(found: &mut MatchResult, c: Candidate)
    requires { length found.old.items < CANDIDATES_MOST }
    ensures items { found.new.items ≡ insert c found.old.items }
    ensures len { length found.new.items ≡ length found.old.items + 1 }
{
    let n = found.len();
    let at = found.iter().position(|d| d.score < c.score).unwrap_or(n);
    found.insert(at, c);
}

// The candidates in order, without those that are nearer than 750 to one listed before.
#[tactic(auto, using(matcher_spec::proofs::CandidateLaws::independent_next), unfolding(matcher_spec::specs::Candidates::independent_from))]
pub fn keep_independent(sorted: &MatchResult) -> MatchResult
    ensures { result.items ≡ independent sorted.now.items }
{
    let mut kept = nothing_found();
    for c in sorted.iter() {
        if !is_crowded(&kept, *c) {
            kept.push(*c);
        }
    }
    kept
}

// Whether c is nearer than 750 to a candidate of the list.
#[tactic(auto, unfolding(matcher_spec::specs::Candidates::crowded))]
fn is_crowded(listed: &[Candidate], c: Candidate) -> bool
    ensures { result ≡ crowded listed.now c }
{
    listed
        .iter()
        .any(|other| abs(other.offset_ms - c.offset_ms) < APART_MS)
}

// The best score less the second; a lone candidate's is its own score, none gives 0.
#[tactic(auto, unfolding(matcher_spec::specs::Candidates::margin_of))]
pub fn margin(found: &[Candidate]) -> f64
    ensures { result ≡ margin_of found.now }
{
    match found {
        [] => 0.0,
        [only] => only.score,
        [best, next, ..] => best.score - next.score,
    }
}
