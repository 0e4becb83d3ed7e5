// What a window is by the last computed one: a jump, a re-reading, or neither.
ghost use Rattle.std.specs.Prelude.{◌<◌, length, ◌&&◌, ◌||◌, not, ◌≡◌};
ghost use Rattle.matcher_spec.specs.Timeline.{accepts};
ghost use Rattle.engine_spec.specs.Windows.{endpoint_of, indexed, jumps_from, rereads, rereads_from};
ghost use Rattle.engine_spec.specs.Submitting.{lock_from};
ghost use Rattle.engine_spec.specs.Opening.{no_lock};

pub use engine_search::search::endpoint_of;
use engine_spec::lent::Window;
use engine_spec::thresholds::REREAD_MS;
use engine_spec::types::{Engine, Last, Lock, RecordedMs, Settings};
use matcher_bands::timeline::accepts_timeline;

// Whether the window is a re-reading.
// Kept: the fact, see `Window`.
pub fn is_reread(settings: Settings, last: Last, window: &Window<'_>) -> bool
    requires { 0 < length window.now.times }
    ensures { result ≡ (last.has_snapshot && rereads settings last.endpoint_ms window.now) }
{
    matches!(
        last.endpoint_ms,
        Some(endpoint) if last.has_snapshot && rereads_from(settings, endpoint, window)
    )
}

// The lock that a window starts from: none after a jump.
pub fn lock_from(engine: Engine, window: &Window<'_>) -> Lock
    requires { 0 < length window.now.times }
    ensures { result ≡ lock_from engine window.now }
{
    match engine.last.endpoint_ms {
        Some(endpoint) if jumps_from(engine.settings.hop_ms, endpoint, window) => no_lock(),
        _ => engine.lock,
    }
}

// An endpoint less than 90 past the last computed one, and no jump. The timeline is looked at last,
// since most windows lie further on.
#[tactic(auto, unfolding(engine_spec::specs::Windows::rereads_from))]
fn rereads_from(settings: Settings, last: RecordedMs, window: &Window<'_>) -> bool
    requires { 0 < length window.now.times }
    ensures { result ≡ rereads_from settings last window.now }
{
    let times = window.times;
    let n = times.len();
    if jumps_from(settings.hop_ms, last, window) {
        return false;
    }
    if times[n - 1] - last.0 < REREAD_MS {
        return may_be_read_again(settings, window);
    }
    false
}

// On an accepted timeline, or without index.
fn may_be_read_again(settings: Settings, window: &Window<'_>) -> bool
    ensures { result ≡ (not (indexed settings) || accepts settings.reference_bands settings.hop_ms window.now.bands window.now.times) }
{
    settings.reference_frames == 0
        || accepts_timeline(
            settings.reference_bands as usize,
            settings.hop_ms,
            window.bands,
            window.times,
        )
}

// An endpoint before the last computed one, or a start more than two hops past it.
#[tactic(auto, unfolding(engine_spec::specs::Windows::jumps_from))]
fn jumps_from(hop: f64, last: RecordedMs, window: &Window<'_>) -> bool
    requires { 0 < length window.now.times }
    ensures { result ≡ jumps_from hop last window.now }
{
    (endpoint_of(window).0 < last.0) | (window.times[0] > last.0 + 2.0 * hop)
}

// No place, and no whole search: also what a jump leaves.
pub fn no_lock() -> Lock
    ensures { result ≡ no_lock }
{
    Lock {
        pending: None,
        accepted: None,
        last_global_search_ms: RecordedMs(f64::NEG_INFINITY),
    }
}
