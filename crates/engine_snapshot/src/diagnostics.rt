// The diagnostics of a snapshot.
ghost use Rattle.std.specs.Prelude.{◌<◌, ◌≤◌, length, cond, ◌≡◌};
ghost use Rattle.numbers_spec.specs.Arithmetic.{zero⁺};
ghost use Rattle.matcher_spec.specs.Candidates.{margin_of};
ghost use Rattle.engine_spec.specs.Publishing.{diagnostics_of, magnitude_of, count_of_track};
ghost use Rattle.engine_spec.specs.Cases.{is_publishing};
ghost use Rattle.engine_decision.specs.Decided.{decision_in};

use crate::candidates::{candidate_array, comparable_frames, coverage, duration_of};
use crate::spectral::spectral_of;
use engine_decision::kinds::Decision;
use engine_decision::verdict::is_ambiguous;
use engine_readiness::active_fraction;
use engine_spec::lent::Window;
use engine_spec::types::{Configuration, Diagnostics, Hypothesis, State};
use matcher_picks::candidates::margin;
use matcher_spec::types::Candidate;

// All diagnostics. The track is counted as it stands after the window.
pub fn diagnostics_of(
    configuration: Configuration,
    hop: f64,
    window: &Window<'_>,
    d: &Decision,
) -> Diagnostics
    requires some_frames { 0 < length window.now.times }
    requires energies { length window.now.times ≤ length window.now.energies }
    ensures { result ≡ diagnostics_of configuration hop window.now (decision_in d.now) }
{
    let publishing = is_publishing(d.verdict.state);
    Diagnostics {
        query_duration_ms: duration_of(window),
        active_frame_fraction: active_fraction(configuration, window),
        coarse_ambiguous: d.global & is_ambiguous(&d.found),
        dense_margin: dense_margin(d.global, &d.found),
        offset_stability_ms: magnitude_of(d.verdict.innovation),
        track_innovation_ms: d.verdict.innovation,
        track_count: track_count(d.lock.accepted),
        offset_tracker_confirmed: publishing,
        offset_tracker_stable: publishing & (d.verdict.coast == 0.0),
        candidate_count: d.found.len(),
        candidates: candidate_array(comparable_frames(hop, window), coverage(window), &d.found),
        spectral: spectral_of(d),
    }
}

// The magnitude of a number that may be missing: of either zero, +0.
#[tactic(auto, unfolding(engine_spec::specs::Publishing::magnitude_of), using(crate::proofs::ShownLaws::without_sign))]
fn magnitude_of(m: Option<f64>) -> Option<f64>
    ensures { result ≡ magnitude_of m }
{
    m.map(f64::abs)
}

// 1 with a track, 0 without.
fn track_count(track: Option<Hypothesis>) -> usize
    ensures { result ≡ count_of_track track }
{
    usize::from(track.is_some())
}

// The margin of a whole search, or 0.
fn dense_margin(global: bool, found: &[Candidate]) -> f64
    ensures { result ≡ cond global (margin_of found.now) zero⁺ }
{
    if global {
        return margin(found);
    }
    0.0
}

// Whether a track is shown.
#[tactic(auto, unfolding(engine_spec::specs::Cases::is_publishing))]
pub fn is_publishing(s: State) -> bool
    ensures { result ≡ is_publishing s }
{
    matches!(s, State::Confirmed | State::Locked)
}
