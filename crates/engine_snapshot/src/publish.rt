// The snapshot of a decision (engine.rs, `publish`).
ghost use Rattle.std.specs.Prelude.{◌<◌, ◌≤◌, length, cond, ◌≡◌};
ghost use Rattle.matcher_spec.specs.declared.types.Candidate.{Candidate};
ghost use Rattle.engine_spec.specs.Publishing.{confidence_of, estimate_at, of_best, phase_of, publish, stage_of, track_correlation};
ghost use Rattle.engine_spec.specs.Cases.{is_publishing};
ghost use Rattle.engine_decision.specs.Decided.{decision_in};

use crate::diagnostics::{diagnostics_of, is_publishing};
use crate::spectral::best_or_blank;
use engine_decision::kinds::Decision;
use engine_decision::windows::endpoint_of;
use engine_spec::lent::Window;
use engine_spec::thresholds::COAST_MOST_MS;
use engine_spec::types::{
    Configuration, Estimate, Hypothesis, LockPhase, Milestones, Reached, RecordedMs, ReferenceMs,
    Snapshot, Stage, State,
};

// The one place where a snapshot is made of a decision; the milestones' readings are as given.
#[tactic(auto, unfolding(engine_spec::specs::Publishing::publish))]
pub fn publish(
    configuration: Configuration,
    hop: f64,
    window: &Window<'_>,
    d: &Decision,
    milestones: Milestones,
) -> Snapshot
    requires some_frames { 0 < length window.now.times }
    requires energies { length window.now.times ≤ length window.now.energies }
    ensures { result ≡ publish configuration hop window.now (decision_in d.now) milestones }
{
    let verdict = d.verdict;
    let state = verdict.state;
    Snapshot {
        state,
        phase: phase_of(d.reached),
        stage: stage_of(state, d.global),
        estimate: estimate_at(endpoint_of(window), verdict.offset),
        withhold_reason: verdict.reason,
        confidence: confidence_of(verdict.offset, correlation_of(d), verdict.coast),
        diagnostics: diagnostics_of(configuration, hop, window, d),
        first_provisional_lock_elapsed_ms: milestones.first_provisional_ms,
        confirmed_lock_elapsed_ms: milestones.confirmed_ms,
        final_lock_elapsed_ms: milestones.final_ms,
    }
}

// The furthest milestone that is there.
#[tactic(auto, unfolding(engine_spec::specs::Publishing::phase_of))]
fn phase_of(k: Reached) -> LockPhase
    ensures { result ≡ phase_of k }
{
    if k.final_lock {
        return LockPhase::Final;
    }
    if k.confirmed {
        return LockPhase::Confirmed;
    }
    if k.provisional {
        return LockPhase::Provisional;
    }
    LockPhase::None
}

// Tracking where a track is shown, else by whether a whole search was made.
#[tactic(auto, unfolding(engine_spec::specs::Publishing::stage_of))]
fn stage_of(s: State, global: bool) -> Stage
    ensures { result ≡ stage_of s global }
{
    if is_publishing(s) {
        return Stage::Tracking;
    }
    if global {
        return Stage::RobustVerify;
    }
    Stage::Readiness
}

// The offset added to the window's endpoint is the place on the reference.
pub fn estimate_at(endpoint: RecordedMs, offset: Option<f64>) -> Option<Estimate>
    ensures { result ≡ estimate_at endpoint offset }
{
    offset.map(|offset_ms| Estimate {
        query_endpoint_recorded_time_ms: endpoint,
        reference_time_ms: ReferenceMs(endpoint.0 + offset_ms),
        offset_ms,
    })
}

// The correlation, less by the part of 1,500 that was coasted; 0 without an estimate.
fn confidence_of(offset: Option<f64>, correlation: f64, coast: f64) -> f64
    ensures { result ≡ confidence_of offset correlation coast }
{
    offset.map_or(0.0, |_| {
        (correlation * (1.0 - coast / COAST_MOST_MS)).clamp(0.0, 1.0)
    })
}

// The track's correlation where a track is shown, else the best candidate's.
fn correlation_of(d: &Decision) -> f64
    ensures { result ≡ cond (is_publishing d.now.verdict.state) (track_correlation d.now.lock.accepted) (of_best (λ (c : Candidate). c.score) d.now.found.items) }
{
    if is_publishing(d.verdict.state) {
        return track_correlation(d.lock.accepted);
    }
    best_or_blank(&d.found).score
}

// 0 without a track.
fn track_correlation(track: Option<Hypothesis>) -> f64
    ensures { result ≡ track_correlation track }
{
    track.map_or(0.0, |held| held.correlation)
}
