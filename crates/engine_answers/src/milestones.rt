// Milestones: which are there, and the one place where a clock reading is written.
ghost use Rattle.std.specs.Prelude.{◌≡◌};
ghost use Rattle.engine_spec.specs.Milestones.{reached_by, stamp, stamped_once, stamped_with_final};

use engine_spec::types::{ClockMs, Milestones, Reached};

// Which milestones are there: all that a decision knows of them.
#[tactic(auto, unfolding(engine_spec::specs::Milestones::reached_by))]
pub fn reached_by(m: Milestones) -> Reached
    ensures { result ≡ reached_by m }
{
    Reached {
        provisional: m.first_provisional_ms.is_some(),
        confirmed: m.confirmed_ms.is_some(),
        final_lock: m.final_ms.is_some(),
    }
}

// The one place where a clock reading is written.
#[tactic(auto, unfolding(engine_spec::specs::Milestones::stamp))]
pub fn stamp(m: Milestones, k: Reached, clock: ClockMs) -> Milestones
    ensures { result ≡ stamp m k clock }
{
    Milestones {
        first_provisional_ms: stamped_once(k.provisional, m.first_provisional_ms, clock),
        confirmed_ms: stamped_with_final(k.final_lock, m.final_ms, m.confirmed_ms, clock),
        final_ms: stamped_once(k.final_lock, m.final_ms, clock),
    }
}

// A milestone that is reached keeps its reading, or takes the clock's if it has none.
#[tactic(auto, unfolding(engine_spec::specs::Milestones::stamped_once))]
fn stamped_once(there: bool, old: Option<ClockMs>, clock: ClockMs) -> Option<ClockMs>
    ensures { result ≡ stamped_once there old clock }
{
    old.or(there.then_some(clock))
}

// Confirmed takes the clock's reading together with final, even where it has one: only a state made
// by a caller has it before.
#[tactic(auto, unfolding(engine_spec::specs::Milestones::stamped_with_final))]
fn stamped_with_final(
    reached: bool,
    last: Option<ClockMs>,
    held: Option<ClockMs>,
    clock: ClockMs,
) -> Option<ClockMs>
    ensures { result ≡ stamped_with_final reached last held clock }
{
    if reached && last.is_none() {
        Some(clock)
    } else {
        held
    }
}
