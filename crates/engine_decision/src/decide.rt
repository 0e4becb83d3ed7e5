// The decision on a window. It sees which milestones are there, and no clock.
ghost use Rattle.std.specs.Prelude.{length, ◌≡◌};
ghost use Rattle.engine_spec.specs.Windows.{matcher_in, reference_of};
ghost use Rattle.engine_spec.specs.Publishing.{decide};
ghost use Rattle.engine_spec.specs.Room.{Room};
ghost use Rattle.engine_decision.specs.Decided.{decision_in};

use crate::kinds::{Decision, Seen};
use crate::verdict::{ready, unready};
use crate::windows::endpoint_of;
use engine_lock::track::evidence;
use engine_readiness::readiness;
use engine_search::kinds::Search;
use engine_spec::lent::Window;
use engine_spec::types::Settings;
use matcher::lent::lent_matcher;
use matcher_spec::lent::Index;
use matcher_spec::types::Reference;

// Readiness first; a window that is ready is searched. A whole search that is due is made where it is
// granted.
// Kept: index and window stand apart, as `submit` takes them: a submission has the clock's reading,
// too, which no decision sees.
#[tactic(auto, unfolding(engine_spec::specs::Publishing::decide))]
pub fn decide(
    granted: bool,
    seen: &Seen,
    index: &Index<'_>,
    window: &Window<'_>,
    work32: &mut [f32],
    work64: &mut [f64],
) -> Decision
    requires { Room seen.now.settings index.now window.now (length work32.old) (length work64.old) }
    ensures { decision_in result ≡ decide granted seen.now.configuration seen.now.settings (matcher_in seen.now.settings index.now) window.now seen.now.reached seen.now.lock }
{
    let settings = seen.settings;
    if let Some(reason) = readiness(seen.configuration, settings, seen.reached.confirmed, window) {
        return unready(settings, seen.reached, seen.lock, reason);
    }
    let search = Search {
        granted,
        matcher: lent_matcher(reference_of(settings), index),
        window,
        reached: seen.reached,
        lock: seen.lock,
    };
    let s = search.searched(work32, work64);
    ready(evidence(settings.hop_ms, endpoint_of(window)), s)
}

fn reference_of(settings: Settings) -> Reference
    ensures { result ≡ reference_of settings }
{
    Reference {
        bands: settings.reference_bands as usize,
        frames: settings.reference_frames as usize,
        start_ms: settings.reference_start_ms.0,
        hop_ms: settings.hop_ms,
    }
}
