// The track and what a local search does to it.
ghost use Rattle.std.specs.Prelude.{◌≡◌};
ghost use Rattle.engine_spec.specs.Windows.{evidence_at, same_place};
ghost use Rattle.engine_spec.specs.Tracking.{followed, gain, may_coast, moved_offset, supports, unsupported};
ghost use Rattle.engine_lock.specs.Views.{tracked_in};

use crate::kinds::Tracked;
use engine_spec::thresholds::{
    COAST_MOST_MS, GAIN_MS, SAME_PLACE_MS, SUPPORT_CORRELATION, SUPPORT_RECENT,
};
use engine_spec::types::{Hypothesis, RecordedMs};
use matcher_bands::centring::context_frames;
use matcher_spec::types::{Candidate, MatchResult};
use numbers::exponential::exp;
use numbers::float::{abs, at_least};

// Evidence time (document 01): an endpoint less the rounded 250 / hop frames that centring trims,
// here without the floor of 1.
pub fn evidence(hop: f64, endpoint: RecordedMs) -> RecordedMs
    ensures { result ≡ evidence_at hop endpoint }
{
    RecordedMs(endpoint.0 - context_frames(hop) * hop)
}

// Two offsets are the same place: at most 80 apart.
pub fn is_same_place(a: f64, b: f64) -> bool
    ensures { result ≡ same_place a b }
{
    abs(a - b) <= SAME_PLACE_MS
}

// A track may coast up to 1,500 after its last evidence.
pub fn may_coast(now: RecordedMs, last: RecordedMs) -> bool
    ensures { result ≡ may_coast now last }
{
    now.0 - last.0 <= COAST_MOST_MS
}

// Whether a candidate supports a track at this offset.
fn supports(offset: f64, best: Candidate) -> bool
    ensures { result ≡ supports offset best }
{
    (best.score >= SUPPORT_CORRELATION)
        & ((best.recent_score >= SUPPORT_RECENT) & is_same_place(best.offset_ms, offset))
}

// How far a supported track goes toward what was found, by the time since its last evidence.
fn gain(dt: f64) -> f64
    ensures { result ≡ gain dt }
{
    1.0 - exp(-dt / GAIN_MS)
}

// The track's offset, moved toward the best candidate's.
fn moved_offset(offset: f64, best: Candidate, dt: f64) -> f64
    ensures { result ≡ moved_offset offset best dt }
{
    offset + gain(dt) * (best.offset_ms - offset)
}

// No support: the track as it was, or none.
pub fn unsupported(track: Option<Hypothesis>, found: MatchResult) -> Tracked
    ensures result_value { tracked_in result ≡ unsupported track found.items }
    ensures found_value { result.found ≡ found }
{
    Tracked {
        accepted: track,
        supported: false,
        innovation: None,
        found,
    }
}

// The track after the best of what a local search found.
#[tactic(auto, unfolding(engine_spec::specs::Tracking::followed))]
pub fn followed(track: Hypothesis, now: RecordedMs, found: MatchResult) -> Tracked
    ensures result_value { tracked_in result ≡ followed track now found.items }
    ensures found_value { result.found ≡ found }
{
    let best = match found.as_slice() {
        [best, ..] => *best,
        [] => return unsupported(Some(track), found),
    };
    if !supports(track.offset_ms, best) {
        return unsupported(Some(track), found);
    }
    let dt = at_least(0.0, now.0 - track.last_evidence_ms.0);
    let moved = Hypothesis {
        offset_ms: moved_offset(track.offset_ms, best, dt),
        last_evidence_ms: now,
        correlation: best.score,
        ..track
    };
    Tracked {
        accepted: Some(moved),
        supported: true,
        innovation: Some(best.offset_ms - track.offset_ms),
        found,
    }
}
