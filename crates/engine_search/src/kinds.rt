// What a search of one window takes.
ghost use Rattle.std.specs.Prelude.{◌*◌, ◌<◌, length, ◌≡◌};

use engine_spec::lent::Window;
use engine_spec::types::{Lock, Reached};
use matcher_spec::lent::Matcher;

// One window's search: whether a whole one is granted, the matcher, the window, and what the engine
// has: which milestones are there, and the lock.
// Kept: how long the working slices are is asked beside them: they are lent `&mut`, and a fact of a
// struct is about what it holds.
#[derive(Drop)]
pub struct Search<'a> {
    pub granted: bool,
    pub matcher: Matcher<'a>,
    pub window: &'a Window<'a>,
    pub reached: Reached,
    pub lock: Lock,
    ghost some_frames: { 0 < length window.now.times },
    ghost all_values: { length window.now.values ≡ window.now.bands * length window.now.times },
}
