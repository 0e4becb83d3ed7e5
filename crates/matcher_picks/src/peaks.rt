// Which places of a list of scores are picked.
ghost use Rattle.std.specs.Prelude.{◌<◌, get_or, length, cond, ◌≡◌, IfSome};
ghost use Rattle.std.specs.Float.{nan};
ghost use Rattle.std.specs.List.{All};
ghost use Rattle.std.specs.Option.{unwrap_or};
ghost use Rattle.matcher_spec.specs.Peaks.{best_free, better, first_maximum, near_to, peaks};

use few::Few;
use matcher_spec::limits::CANDIDATES_MOST;

// A place and the score there.
#[derive(Clone, Copy)]
pub struct Maximum {
    pub at: usize,
    pub score: f64,
}

// The first of the largest scores.
#[tactic(auto, unfolding(matcher_spec::specs::Peaks::maximum_to))]
pub fn first_maximum(scores: &[f64]) -> Maximum
    requires { 0 < length scores.now }
    ensures at_value { result.at ≡ first_maximum scores.now }
    ensures score_value { result.score ≡ get_or scores.now result.at nan }
    ensures at_in_bounds { result.at < length scores.now }
{
    let mut at = 0;
    for i in 0..scores.len() {
        if scores[i] > scores[at] {
            at = i;
        }
    }
    Maximum {
        at,
        score: scores[at],
    }
}

// Places in the order in which they were picked.
pub type Picked = Few<usize, CANDIDATES_MOST>;

// At most 8 places, each the best that is free.
#[tactic(auto, using(crate::proofs::PeakLaws::pick_more, crate::proofs::PeakLaws::pick_none), unfolding(matcher_spec::specs::Peaks::peaks_from))]
pub fn pick_peaks(scores: &[f64], separation: usize) -> Picked
    ensures value { result.items ≡ peaks scores.now separation }
    ensures in_bounds { All (λ place. place < length scores.now) result.items }
{
    let mut picked = Picked::new();
    for _ in 0..CANDIDATES_MOST {
        let Some(best) = best_free(scores, separation, &picked) else {
            return picked;
        };
        picked.push(best);
    }
    picked
}

// The first of the largest scores among the free places. Nearness is a loop and few places beat
// the best so far, so only those are asked.
#[tactic(auto, unfolding(matcher_spec::specs::Peaks::free_to))]
fn best_free(scores: &[f64], separation: usize, taken: &[usize]) -> Option<usize>
    ensures value { unwrap_or result (length scores.now) ≡ best_free scores.now separation taken.now }
    ensures in_bounds { IfSome result (λ i. i < length scores.now) }
{
    let mut best = None;
    for i in 0..scores.len() {
        if beats(scores, best, i) && !is_near(taken, separation, i) {
            best = Some(i);
        }
    }
    best
}

// Whether place i beats the best so far.
fn beats(scores: &[f64], best: Option<usize>, i: usize) -> bool
    requires best_in_bounds { IfSome best (λ b. b < length scores.now) }
    requires i_in_bounds { i < length scores.now }
    ensures { cond result i (unwrap_or best (length scores.now)) ≡ better scores.now (unwrap_or best (length scores.now)) i }
{
    best.is_none_or(|b| scores[i] > scores[b])
}

// Whether one of the places taken is nearer than the separation to i.
#[tactic(auto, unfolding(matcher_spec::specs::Peaks::near_to))]
fn is_near(taken: &[usize], separation: usize, i: usize) -> bool
    ensures { result ≡ near_to taken.now separation i }
{
    taken.iter().any(|at| at.abs_diff(i) < separation)
}
