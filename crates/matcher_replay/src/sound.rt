// References and windows from a few numbers, so that a list of cases stays short. The driver in
// compare/ makes the same ones.
ghost use Rattle.std.specs.Prelude.{◌≡◌, ◌<◌, ◌≤◌, length};
ghost use Rattle.matcher_replay.specs.Cases.{fine_room, seeds_end};
ghost use Rattle.matcher_replay.specs.Sounds.{heard_at, reference_values, sound_at, window_values};

use crate::small::SmallCase;
use replays::sound::{fill_bands, value_at};

// Values of a band lie so far from those of the next.
const BAND_STEP: usize = 8192;

// A sound that repeats every `period` frames.
#[derive(Clone, Copy)]
struct Sound {
    seed: u64,
    period: usize,
    ghost seeded: { seed ≤ seeds_end },
    ghost repeats: { 0 < period },
}

impl Sound {
    // What a band has at a frame.
    #[tactic(auto, unfolding(crate::specs::Sounds::sound_at))]
    fn at(self, band: usize, frame: usize) -> f32
        requires { band < fine_room }
        ensures { result ≡ sound_at self.seed self.period band frame }
    {
        value_at(
            self.seed,
            (band * BAND_STEP + frame % self.period % BAND_STEP) as u64,
        )
    }
}

impl SmallCase {
    // What the reference has.
    fn sound(self) -> Sound
        ensures seed { result.seed ≡ self.case.seed }
        ensures period { result.period ≡ self.case.period }
    {
        Sound {
            seed: self.case.seed,
            period: self.case.period,
        }
    }

    // What a window hears in a band at a frame of it: softer, and with something else beside it.
    #[tactic(auto, unfolding(crate::specs::Sounds::heard_at))]
    fn heard_at(self, band: usize, frame: usize) -> f32
        requires { band < fine_room }
        ensures { result ≡ heard_at self.case.seed self.case.period band frame }
    {
        let beside = Sound {
            seed: self.case.seed + 1,
            period: BAND_STEP,
        };
        self.sound().at(band, frame) * 0.75 + beside.at(band, frame) * 0.25
    }

    // The reference, band after band.
    pub fn fill_reference(self, values: &mut [f32])
        requires { length values.old ≤ fine_room }
        ensures { values.new ≡ reference_values self.case.seed self.case.period self.case.frames (length values.old) }
    {
        let sound = self.sound();
        fill_bands(
            values,
            self.case.frames,
            |band, frame| sound.at(band, frame),
        );
    }

    // The window from frame `from` on, band after band.
    pub fn fill_window(self, values: &mut [f32])
        requires { length values.old ≤ fine_room }
        ensures { values.new ≡ window_values self.case.seed self.case.period self.case.window self.case.from (length values.old) }
    {
        let from = self.case.from;
        fill_bands(
            values,
            self.case.window,
            |band, frame| self.heard_at(band, from + frame),
        );
    }
}
