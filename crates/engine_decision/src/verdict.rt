// What is said of the place, of a window that was searched and of one that could not be.
ghost use Rattle.std.specs.Prelude.{eqb, cond, not, ◌≡◌, None, Some};
ghost use Rattle.engine_spec.specs.Publishing.{ambiguous, off_track, offset_of, on_track, ready, unready, verdict_of};
ghost use Rattle.engine_spec.specs.declared.types.State.TheVariants as state;
ghost use Rattle.engine_spec.specs.declared.types.WithholdReason.TheVariants as reason;
ghost use Rattle.engine_lock.specs.Views.{searched_in};
ghost use Rattle.engine_decision.specs.Decided.{decision_in};

use crate::kinds::Decision;
use engine_lock::kinds::Searched;
use engine_lock::track::may_coast;
use engine_spec::thresholds::PASSING_MARGIN;
use engine_spec::types::{
    Hypothesis, Lock, Reached, RecordedMs, Settings, State, Verdict, WithholdReason,
};
use matcher_picks::candidates::{margin, nothing_found};
use matcher_spec::types::MatchResult;
use numbers::float::at_least;

// What a window decides that was searched, with this evidence time.
pub fn ready(now: RecordedMs, s: Searched) -> Decision
    ensures result_value { decision_in result ≡ ready now (searched_in s) }
    ensures found_value { result.found ≡ s.found }
{
    let verdict = verdict_of(s.lock.accepted, now, &s);
    Decision {
        lock: s.lock,
        reached: s.reached,
        global: s.global,
        found: s.found,
        verdict,
    }
}

// What a window decides that cannot be searched: the observed loss of sound is no support for the
// old place.
pub fn unready(settings: Settings, reached: Reached, lock: Lock, reason: WithholdReason) -> Decision
    ensures { decision_in result ≡ unready settings reached lock reason }
{
    Decision {
        lock: Lock {
            pending: None,
            accepted: None,
            ..lock
        },
        reached,
        global: false,
        found: nothing_found(),
        verdict: Verdict {
            state: unready_state(settings.reference_frames, reached.confirmed),
            reason: Some(reason),
            offset: None,
            innovation: None,
            coast: 0.0,
        },
    }
}

// A track is shown as long as it may coast.
#[tactic(auto, unfolding(engine_spec::specs::Publishing::verdict_of))]
pub fn verdict_of(accepted: Option<Hypothesis>, now: RecordedMs, s: &Searched) -> Verdict
    ensures { result ≡ verdict_of accepted now (searched_in s.now) }
{
    match accepted {
        Some(track) if may_coast(now, track.last_evidence_ms) => {
            on_track(s, track.offset_ms, now.0 - track.last_evidence_ms.0)
        }
        _ => off_track(s),
    }
}

// On a track at this offset, whose evidence ended so long ago. From a fresh engine it is never
// Confirmed.
fn on_track(s: &Searched, offset: f64, since: f64) -> Verdict
    ensures { result ≡ on_track (searched_in s.now) offset since }
{
    Verdict {
        state: on_track_state(s.reached.final_lock),
        reason: on_track_reason(s.supported),
        offset: Some(offset),
        innovation: s.innovation,
        coast: at_least(0.0, since),
    }
}

// On no track: Locking with the pending place, or Relocking with none.
fn off_track(s: &Searched) -> Verdict
    ensures { result ≡ off_track (searched_in s.now) }
{
    Verdict {
        state: off_track_state(s.reached.confirmed),
        reason: Some(off_track_reason(&s.found)),
        offset: off_track_offset(s.reached.confirmed, s.lock.pending),
        innovation: None,
        coast: 0.0,
    }
}

// Something was found, but its margin is below 0.06.
pub fn is_ambiguous(found: &MatchResult) -> bool
    ensures { result ≡ ambiguous found.now.items }
{
    !found.is_empty() && margin(found) < PASSING_MARGIN
}

fn off_track_state(confirmed: bool) -> State
    ensures { result ≡ cond confirmed state.Relocking state.Locking }
{
    if confirmed {
        State::Relocking
    } else {
        State::Locking
    }
}

fn off_track_reason(found: &MatchResult) -> WithholdReason
    ensures { result ≡ cond (ambiguous found.now.items) reason.AmbiguousOffset reason.WeakAlignmentPeak }
{
    if is_ambiguous(found) {
        WithholdReason::AmbiguousOffset
    } else {
        WithholdReason::WeakAlignmentPeak
    }
}

fn off_track_offset(confirmed: bool, pending: Option<Hypothesis>) -> Option<f64>
    ensures { result ≡ cond confirmed None (offset_of pending) }
{
    pending.filter(|_| !confirmed).map(|held| held.offset_ms)
}

fn on_track_state(last: bool) -> State
    ensures { result ≡ cond last state.Locked state.Confirmed }
{
    if last {
        State::Locked
    } else {
        State::Confirmed
    }
}

fn on_track_reason(supported: bool) -> Option<WithholdReason>
    ensures { result ≡ cond supported None (Some reason.WeakAlignmentPeak) }
{
    (!supported).then_some(WithholdReason::WeakAlignmentPeak)
}

// Failed without index; else Lost once a lock was confirmed, and Listening before.
fn unready_state(frames: u16, confirmed: bool) -> State
    ensures { result ≡ cond (not (eqb frames 0)) (cond confirmed state.Lost state.Listening) state.Failed }
{
    if frames == 0 {
        return State::Failed;
    }
    if confirmed {
        State::Lost
    } else {
        State::Listening
    }
}
