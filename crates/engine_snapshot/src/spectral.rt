// What a snapshot shows of the search.
ghost use Rattle.std.specs.Prelude.{cond, ◌≡◌, None, Some};
ghost use Rattle.matcher_spec.specs.Candidates.{margin_of};
ghost use Rattle.matcher_spec.specs.declared.types.Candidate.{Candidate};
ghost use Rattle.engine_spec.specs.Publishing.{fresh_evidence, of_best, spectral_of};
ghost use Rattle.engine_decision.specs.Decided.{decision_in};

use engine_decision::kinds::Decision;
use engine_spec::types::{Hypothesis, SpectralDiagnostics};
use matcher_picks::candidates::margin;
use matcher_spec::types::Candidate;
use numbers::float::at_least;

// The best candidate's correlations, the margin of a whole search, pending's evidence, the coast.
pub fn spectral_of(d: &Decision) -> SpectralDiagnostics
    ensures { result ≡ spectral_of (decision_in d.now) }
{
    let best = best_or_blank(&d.found);
    SpectralDiagnostics {
        global_search: d.global,
        correlation: best.score,
        competing_peak_margin: margin_if(d.global, &d.found),
        first_half_correlation: best.first_half_score,
        second_half_correlation: best.second_half_score,
        recent_correlation: best.recent_score,
        fresh_evidence_ms: fresh_evidence(d.lock.pending),
        coast_ms: d.verdict.coast,
    }
}

// The best candidate, or one of zeros.
pub fn best_or_blank(found: &[Candidate]) -> Candidate
    ensures { (result.score ≡ of_best (λ (c : Candidate). c.score) found.now) × (result.first_half_score ≡ of_best (λ (c : Candidate). c.first_half_score) found.now) × (result.second_half_score ≡ of_best (λ (c : Candidate). c.second_half_score) found.now) × (result.recent_score ≡ of_best (λ (c : Candidate). c.recent_score) found.now) }
{
    found.first().copied().unwrap_or_default()
}

// How long the evidence for pending spans.
#[tactic(auto, unfolding(engine_spec::specs::Publishing::fresh_evidence))]
fn fresh_evidence(pending: Option<Hypothesis>) -> f64
    ensures { result ≡ fresh_evidence pending }
{
    pending.map_or(0.0, |held| {
        at_least(0.0, held.last_evidence_ms.0 - held.first_evidence_ms.0)
    })
}

// Only a whole search has a competing peak.
fn margin_if(global: bool, found: &[Candidate]) -> Option<f64>
    ensures { result ≡ cond global (Some (margin_of found.now)) None }
{
    global.then(|| margin(found))
}
