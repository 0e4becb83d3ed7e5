// A fresh engine, and what stands where there is none.
ghost use Rattle.std.specs.Prelude.{◌<◌, ◌≤◌, length, ◌≡◌};
ghost use Rattle.engine_spec.specs.Opening.{blank_snapshot, fresh_engine, with_index, without_index};
ghost use Rattle.matcher_spec.specs.Limits.{frames_most, bands_most};

use engine_decision::windows::no_lock;
use engine_spec::types::{
    Configuration, Diagnostics, Engine, Last, LockPhase, Milestones, ReferenceMs, Settings,
    Snapshot, Stage, State,
};
use matcher_spec::lent::Features;

// No endpoint, snapshot, place or milestone.
#[tactic(auto, unfolding(engine_spec::specs::Opening::fresh_engine))]
pub fn fresh_engine(configuration: Configuration, settings: Settings) -> Engine
    ensures { result ≡ fresh_engine configuration settings }
{
    Engine {
        configuration,
        settings,
        lock: no_lock(),
        milestones: Milestones::default(),
        last: Last {
            endpoint_ms: None,
            has_snapshot: false,
            snapshot: blank_snapshot(),
        },
    }
}

// The reference's counts and start.
pub fn with_index(hop: f64, reference: &Features<'_>) -> Settings
    requires some { 0 < length reference.now.times }
    requires few { length reference.now.times ≤ frames_most }
    requires few_bands { reference.now.bands ≤ bands_most }
    ensures { result ≡ with_index hop reference.now }
{
    Settings {
        hop_ms: hop,
        reference_frames: reference.times.len() as u16,
        reference_bands: reference.bands as u16,
        reference_start_ms: ReferenceMs(reference.times[0]),
    }
}

// Counts and start are 0.
pub fn without_index(hop: f64) -> Settings
    ensures { result ≡ without_index hop }
{
    Settings {
        hop_ms: hop,
        reference_frames: 0,
        reference_bands: 0,
        reference_start_ms: ReferenceMs(0.0),
    }
}

// A snapshot of nothing, where a value has to stand and there is no snapshot.
#[tactic(auto, unfolding(engine_spec::specs::Opening::blank_snapshot))]
pub fn blank_snapshot() -> Snapshot
    ensures { result ≡ blank_snapshot }
{
    Snapshot {
        state: State::Ready,
        phase: LockPhase::None,
        stage: Stage::Readiness,
        estimate: None,
        withhold_reason: None,
        confidence: 0.0,
        diagnostics: Diagnostics::default(),
        first_provisional_lock_elapsed_ms: None,
        confirmed_lock_elapsed_ms: None,
        final_lock_elapsed_ms: None,
    }
}
