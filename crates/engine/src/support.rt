// How long ago the lock that is shown was last supported.
ghost use Rattle.std.specs.Prelude.{◌≡◌};
ghost use Rattle.engine_spec.specs.SupportAge.{coast_shown, support_age};
ghost use Rattle.engine_spec.specs.Results.{aged};

use engine_refusals::states::is_valid_engine;
use engine_spec::types::{Engine, Refusal, Snapshot, State};

// The coast of the last computed answer, where that was Locked; nothing else is an age. A state out
// of range is refused with 7.
#[tactic(auto, unfolding(engine_spec::specs::SupportAge::support_age))]
pub fn support_age(engine: Engine) -> Result<Option<f64>, Refusal>
    ensures { result ≡ aged (support_age engine) }
{
    if !is_valid_engine(engine) {
        return Err(Refusal::StateOutOfRange);
    }
    if engine.last.has_snapshot {
        return Ok(coast_shown(engine.last.snapshot));
    }
    Ok(None)
}

// The coast of a snapshot that is Locked.
#[tactic(auto, unfolding(engine_spec::specs::SupportAge::coast_shown, engine_spec::specs::Cases::is_locked))]
fn coast_shown(s: Snapshot) -> Option<f64>
    ensures { result ≡ coast_shown s }
{
    matches!(s.state, State::Locked).then_some(s.diagnostics.spectral.coast_ms)
}
