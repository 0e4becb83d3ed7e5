// The engine lent, and changed where it lies: a thin call over `submit`, as document 01 asks.
ghost use Rattle.std.specs.Prelude.{length, ◌≡◌, OnErr};
ghost use Rattle.numbers_spec.specs.Rows.{Every, F32};
ghost use Rattle.engine_spec.specs.Submitting.{submit};
ghost use Rattle.engine_spec.specs.Results.{submitted};
ghost use Rattle.engine_spec.specs.Lent.{handed};

use crate::submitting::submit;
use engine_spec::lent::Window;
use engine_spec::types::{ClockMs, Engine, Refusal, Submitted};
use matcher_spec::lent::Index;

// Answers a window, or refuses it by number, as `submit` does, and leaves the next engine in the
// lent one; a refusal leaves the lent engine and both working slices as they were.
// Kept: the parameters are those of `submit`.
#[tactic(auto, unfolding(engine_spec::specs::Submitting::submit))]
pub fn process(
    engine: &mut Engine,
    index: &Index<'_>,
    window: &Window<'_>,
    clock: ClockMs,
    work32: &mut [f32],
    work64: &mut [f64],
) -> Result<Submitted, Refusal>
    ensures value { result ≡ submitted (submit engine.old (handed index.now window.now clock (length work32.old) (length work64.old))) }
    ensures stored { engine.new ≡ (submit engine.old (handed index.now window.now clock (length work32.old) (length work64.old))).engine }
    ensures untouched { OnErr result ((work32.new ≡ work32.old) × (work64.new ≡ work64.old)) }
    ensures lengths { (length work32.new ≡ length work32.old) × (length work64.new ≡ length work64.old) }
    ensures held { Every F32 window.now.values }
{
    let done = submit(*engine, index, window, clock, work32, work64)?;
    *engine = done.engine;
    Ok(done)
}
