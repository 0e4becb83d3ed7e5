// Refusals 1 and 7: configurations and states.
ghost use Rattle.std.specs.Prelude.{◌≡◌};
ghost use Rattle.engine_spec.specs.Milestones.{milestones_shown};
ghost use Rattle.engine_spec.specs.Refusals.{both_or_neither, counts_in_range, valid_configuration, valid_duration, valid_endpoint, valid_engine, valid_estimate, valid_hypothesis, valid_last, valid_lock, valid_milestone, valid_milestones, valid_search_time, valid_settings, valid_snapshot};

use crate::ranges::{is_hop, is_near, is_track_number};
use engine_spec::types::{
    ClockMs, Configuration, Engine, Estimate, Hypothesis, Last, Lock, Milestones, RecordedMs,
    Settings, Snapshot,
};
use matcher_spec::limits::{BANDS_MOST, CANDIDATES_MOST, FRAMES_MOST};
use numbers::float::is_finite;

// A duration is finite and above 0; -0.0 is not.
fn is_valid_duration(d: f64) -> bool
    ensures { result ≡ valid_duration d }
{
    is_finite(d) && d > 0.0
}

// 1: `Configuration::validate`.
#[tactic(auto, unfolding(engine_spec::specs::Refusals::valid_configuration))]
pub fn is_valid_configuration(c: Configuration) -> bool
    ensures { result ≡ valid_configuration c }
{
    is_valid_duration(c.minimum_readiness_duration_ms)
        && is_valid_duration(c.tracking_query_duration_ms)
        && is_finite(c.minimum_active_frame_energy_dbfs)
        && is_finite(c.minimum_average_energy_dbfs)
        && c.minimum_active_frame_fraction >= 0.0
        && c.minimum_active_frame_fraction <= 1.0
}

// 3: the reference's size.
pub fn are_counts(frames: usize, bands: usize) -> bool
    ensures { result ≡ counts_in_range frames bands }
{
    frames <= FRAMES_MOST && bands <= BANDS_MOST
}

// Frames and bands: both 0, or neither.
fn is_both_or_neither(frames: usize, bands: usize) -> bool
    ensures { result ≡ both_or_neither frames bands }
{
    (frames == 0 && bands == 0) || (0 < frames && 0 < bands)
}

// What is fixed at opening.
#[tactic(auto, unfolding(engine_spec::specs::Refusals::valid_settings))]
fn is_valid_settings(s: Settings) -> bool
    ensures { result ≡ valid_settings s }
{
    let frames = s.reference_frames as usize;
    let bands = s.reference_bands as usize;
    is_hop(s.hop_ms)
        && are_counts(frames, bands)
        && is_both_or_neither(frames, bands)
        && is_near(s.reference_start_ms.0)
}

// All four numbers of a place.
#[tactic(auto, unfolding(engine_spec::specs::Refusals::valid_hypothesis))]
fn is_valid_hypothesis(h: Option<Hypothesis>) -> bool
    ensures { result ≡ valid_hypothesis h }
{
    h.is_none_or(|h| {
        is_track_number(h.offset_ms)
            && is_track_number(h.first_evidence_ms.0)
            && is_track_number(h.last_evidence_ms.0)
            && is_track_number(h.correlation)
    })
}

// The search time may be minus infinity.
fn is_valid_search_time(t: RecordedMs) -> bool
    ensures { result ≡ valid_search_time t }
{
    is_near(t.0) || t.0 == f64::NEG_INFINITY
}

// Pending, accepted and the search time.
#[tactic(auto, unfolding(engine_spec::specs::Refusals::valid_lock))]
fn is_valid_lock(l: Lock) -> bool
    ensures { result ≡ valid_lock l }
{
    is_valid_hypothesis(l.pending)
        && is_valid_hypothesis(l.accepted)
        && is_valid_search_time(l.last_global_search_ms)
}

// A reading is finite, however large.
// Kept: beside `is_valid_endpoint`, two kinds of time of which two things are asked.
#[tactic(auto, unfolding(engine_spec::specs::Refusals::valid_milestone))]
fn is_valid_milestone(m: Option<ClockMs>) -> bool
    ensures { result ≡ valid_milestone m }
{
    m.is_none_or(|t| is_finite(t.0))
}

// All three.
#[tactic(auto, unfolding(engine_spec::specs::Refusals::valid_milestones))]
fn are_valid_milestones(m: Milestones) -> bool
    ensures { result ≡ valid_milestones m }
{
    is_valid_milestone(m.first_provisional_ms)
        && is_valid_milestone(m.confirmed_ms)
        && is_valid_milestone(m.final_ms)
}

// The last computed window's endpoint.
#[tactic(auto, unfolding(engine_spec::specs::Refusals::valid_endpoint))]
fn is_valid_endpoint(e: Option<RecordedMs>) -> bool
    ensures { result ≡ valid_endpoint e }
{
    e.is_none_or(|t| is_near(t.0))
}

// All three numbers of an estimate.
#[tactic(auto, unfolding(engine_spec::specs::Refusals::valid_estimate))]
fn is_valid_estimate(e: Option<Estimate>) -> bool
    ensures { result ≡ valid_estimate e }
{
    e.is_none_or(|e| {
        is_track_number(e.query_endpoint_recorded_time_ms.0)
            && is_track_number(e.reference_time_ms.0)
            && is_track_number(e.offset_ms)
    })
}

// The milestones that a snapshot shows, as an engine holds them.
// Kept: engine_words has the same, and neither crate rests on the other.
fn milestones_shown(s: Snapshot) -> Milestones
    ensures { result ≡ milestones_shown s }
{
    Milestones {
        first_provisional_ms: s.first_provisional_lock_elapsed_ms,
        confirmed_ms: s.confirmed_lock_elapsed_ms,
        final_ms: s.final_lock_elapsed_ms,
    }
}

// At most 8 candidates, and an estimate and milestones that a state may hold.
#[tactic(auto, unfolding(engine_spec::specs::Refusals::valid_snapshot))]
fn is_valid_snapshot(s: Snapshot) -> bool
    ensures { result ≡ valid_snapshot s }
{
    s.diagnostics.candidate_count <= CANDIDATES_MOST
        && is_valid_estimate(s.estimate)
        && are_valid_milestones(milestones_shown(s))
}

// Where there is no last snapshot, nothing is asked of one.
#[tactic(auto, unfolding(engine_spec::specs::Refusals::valid_last))]
fn is_valid_last(l: Last) -> bool
    ensures { result ≡ valid_last l }
{
    is_valid_endpoint(l.endpoint_ms) && (!l.has_snapshot || is_valid_snapshot(l.snapshot))
}

// 7: everything that a state holds.
#[tactic(auto, unfolding(engine_spec::specs::Refusals::valid_engine))]
pub fn is_valid_engine(e: Engine) -> bool
    ensures { result ≡ valid_engine e }
{
    is_valid_configuration(e.configuration)
        && is_valid_settings(e.settings)
        && is_valid_lock(e.lock)
        && are_valid_milestones(e.milestones)
        && is_valid_last(e.last)
}
