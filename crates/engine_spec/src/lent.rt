// What a submission is lent, each with the record of the definitions that it stands for.
ghost use Rattle.engine_spec.specs.Windows.{Submission, Window};
ghost use Rattle.engine_spec.specs.Lent.{handed, window};

use crate::types::ClockMs;
use matcher_spec::lent::Index;
use std::marker::Model;

// A time and an energy for each frame, and values band after band.
// Kept: what a window or a reference has that is not refused (a frame, an energy for each, few bands)
// is asked where it is needed: a type with all of it would ask more of callers of public functions
// that ask for a part. A struct of `&Window` and one of the facts would ask no more; it would save a
// clause, and each body would have to make it or take it apart.
#[derive(Drop)]
pub struct Window<'a> {
    pub bands: usize,
    pub times: &'a [f64],
    pub energies: &'a [f64],
    pub values: &'a [f32],
}

impl<'a> Model for Window<'a> {
    ghost Value = { Window };

    ghost view = { λ w. window w.bands w.times.now w.energies.now w.values.now };
}

// What is handed in beside the engine. The working slices are lent `&mut`, and stand here by their
// lengths.
#[derive(Drop)]
pub struct Submission<'a> {
    pub index: &'a Index<'a>,
    pub window: &'a Window<'a>,
    pub clock: ClockMs,
    pub room32: usize,
    pub room64: usize,
}

impl<'a> Model for Submission<'a> {
    ghost Value = { Submission };

    ghost view = { λ s. handed s.index.now s.window.now s.clock s.room32 s.room64 };
}
