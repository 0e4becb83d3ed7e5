// Submission: the refusal, then the answer.
ghost use Rattle.std.specs.Prelude.{length, ◌≡◌, OnErr, Ok};
ghost use Rattle.numbers_spec.specs.Rows.{Every, F32};
ghost use Rattle.engine_spec.specs.Submitting.{answered_from, submit};
ghost use Rattle.engine_spec.specs.Results.{submitted};
ghost use Rattle.engine_spec.specs.Lent.{handed};
ghost use Rattle.engine_spec.specs.Room.{Room};

use engine_answers::answers::{computed_from, reread};
use engine_answers::milestones::reached_by;
use engine_decision::decide::decide;
use engine_decision::kinds::Seen;
use engine_decision::windows::{endpoint_of, is_reread, lock_from};
use engine_opening::opening::are_f32;
use engine_refusals::handed::check_submission;
use engine_spec::lent::{Submission, Window};
use engine_spec::types::{ClockMs, Engine, Refusal, Submitted};
use matcher_spec::lent::Index;

// Answers a window, or refuses it by number. `engine` is what the submission before gave back, or
// `open` gave; the index is as `open` filled it. A refusal writes nothing. What the working slices
// held does not matter, and what they hold then is free. That the values are f32 is said for whoever
// applies `open`'s guarantee to a list of calls.
// Kept: a struct of index, window and clock would be `Submission` once more, less the lengths of the
// working slices.
#[tactic(auto, unfolding(engine_spec::specs::Submitting::submit))]
pub fn submit(
    engine: Engine,
    index: &Index<'_>,
    window: &Window<'_>,
    clock: ClockMs,
    work32: &mut [f32],
    work64: &mut [f64],
) -> Result<Submitted, Refusal>
    ensures value { result ≡ submitted (submit engine (handed index.now window.now clock (length work32.old) (length work64.old))) }
    ensures untouched { OnErr result ((work32.new ≡ work32.old) × (work64.new ≡ work64.old)) }
    ensures lengths { (length work32.new ≡ length work32.old) × (length work64.new ≡ length work64.old) }
    ensures held { Every F32 window.now.values }
{
    are_f32(window.values);
    let submission = Submission {
        index,
        window,
        clock,
        room32: work32.len(),
        room64: work64.len(),
    };
    check_submission(engine, &submission)?;
    Ok(answered(engine, &submission, work32, work64))
}

// A submission that is not refused: the last snapshot again, or a computed one. A call of its own, so
// that a refused one takes no stack for it.
#[inline(never)]
#[tactic(auto, unfolding(engine_spec::specs::Submitting::answered_from, engine_spec::specs::Submitting::decision_on))]
fn answered(
    engine: Engine,
    submission: &Submission<'_>,
    work32: &mut [f32],
    work64: &mut [f64],
) -> Submitted
    requires { Room engine.settings submission.now.index submission.now.window (length work32.old) (length work64.old) }
    ensures { Ok result ≡ submitted (answered_from engine submission.now) }
{
    let window = submission.window;
    if is_reread(engine.settings, engine.last, window) {
        return reread(engine, endpoint_of(window));
    }
    let seen = Seen {
        configuration: engine.configuration,
        settings: engine.settings,
        reached: reached_by(engine.milestones),
        lock: lock_from(engine, window),
    };
    let d = decide(true, &seen, submission.index, window, work32, work64);
    computed_from(engine, window, submission.clock, &d)
}
