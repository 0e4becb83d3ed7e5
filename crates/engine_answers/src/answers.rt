// The answers to a window: read again, or computed.
ghost use Rattle.std.specs.Prelude.{◌<◌, ◌≤◌, length, ◌≡◌, Ok};
ghost use Rattle.engine_spec.specs.Submitting.{computed_from, moved, reread, shown_again};
ghost use Rattle.engine_spec.specs.Results.{submitted};
ghost use Rattle.engine_decision.specs.Decided.{decision_in};

use crate::milestones::stamp;
use engine_decision::kinds::Decision;
use engine_decision::windows::endpoint_of;
use engine_snapshot::publish::{estimate_at, publish};
use engine_spec::lent::Window;
use engine_spec::types::{
    AnswerKind, ClockMs, Engine, Estimate, Last, Milestones, RecordedMs, Snapshot, Submitted,
};

// A re-reading: the last snapshot shown again. The engine stays as it is.
#[tactic(auto, unfolding(engine_spec::specs::Submitting::reread))]
pub fn reread(engine: Engine, endpoint: RecordedMs) -> Submitted
    ensures { Ok result ≡ submitted (reread engine endpoint) }
{
    let snapshot = shown_again(endpoint, engine.milestones, engine.last.snapshot);
    Submitted {
        answer: AnswerKind::Reread,
        engine,
        snapshot,
    }
}

// A snapshot with its estimate moved to this endpoint, and with the engine's own milestones.
#[tactic(auto, unfolding(engine_spec::specs::Submitting::shown_again))]
fn shown_again(endpoint: RecordedMs, milestones: Milestones, snapshot: Snapshot) -> Snapshot
    ensures { result ≡ shown_again endpoint milestones snapshot }
{
    Snapshot {
        estimate: moved(endpoint, snapshot.estimate),
        first_provisional_lock_elapsed_ms: milestones.first_provisional_ms,
        confirmed_lock_elapsed_ms: milestones.confirmed_ms,
        final_lock_elapsed_ms: milestones.final_ms,
        ..snapshot
    }
}

// An estimate moved to another endpoint.
#[tactic(auto, unfolding(engine_spec::specs::Submitting::moved))]
fn moved(endpoint: RecordedMs, old: Option<Estimate>) -> Option<Estimate>
    ensures { result ≡ moved endpoint old }
{
    estimate_at(endpoint, old.map(|estimate| estimate.offset_ms))
}

// A computed answer, and the one place where the next engine is made.
// Kept: both facts, see `Window`.
#[tactic(auto, unfolding(engine_spec::specs::Submitting::computed_from))]
pub fn computed_from(engine: Engine, window: &Window<'_>, clock: ClockMs, d: &Decision) -> Submitted
    requires some_frames { 0 < length window.now.times }
    requires energies { length window.now.times ≤ length window.now.energies }
    ensures { Ok result ≡ submitted (computed_from engine window.now clock (decision_in d.now)) }
{
    let milestones = stamp(engine.milestones, d.reached, clock);
    let snapshot = publish(
        engine.configuration,
        engine.settings.hop_ms,
        window,
        d,
        milestones,
    );
    let last = Last {
        endpoint_ms: Some(endpoint_of(window)),
        has_snapshot: true,
        snapshot,
    };
    let next = Engine {
        lock: d.lock,
        milestones,
        last,
        ..engine
    };
    Submitted {
        answer: AnswerKind::Computed,
        engine: next,
        snapshot,
    }
}
