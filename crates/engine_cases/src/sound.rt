// References and windows from a few numbers, so that a list of sessions stays short. The driver in
// compare/ makes the same ones.
ghost use Rattle.std.specs.Prelude.{◌<◌, ◌≡◌, max};

use replays::sound::{fill_bands, value_at};

// What is heard of a reference: frame 0 of the window is the reference's frame `from`. Before the
// window's frame `since` and from `until` on something else is heard, and beside the reference
// too: noise % 64 parts of 64. Which sound it is noise / 64 says.
#[derive(Clone, Copy)]
pub struct Heard {
    pub from: usize,
    pub since: usize,
    pub until: usize,
    pub noise: u64,
}

// The sound of a reference, which repeats every `period` frames.
#[derive(Clone, Copy)]
pub struct Sound {
    pub seed: u64,
    pub period: usize,
    ghost repeats: { 0 < period },
}

impl Sound {
    // A period of no frames counts as one of 1.
    pub fn new(seed: u64, period: usize) -> Sound
        ensures seed { result.seed ≡ seed }
        ensures period { result.period ≡ max period 1 }
    {
        Sound {
            seed,
            period: period.max(1),
        }
    }

    // What a band has at a frame: a level that lasts four frames, since whole searches look at
    // averages first, and one of the frame's own.
    fn at(self, band: usize, frame: usize) -> f32 {
        let place = frame % self.period % 4096;
        let row = band % 64 * 8192;
        let level = value_at(self.seed, (row + place / 4) as u64);
        level * 0.75 + value_at(self.seed, (row + 4096 + place) as u64) * 0.25
    }

    // What a window hears in a band at its frame.
    fn heard_at(self, heard: Heard, band: usize, frame: usize) -> f32 {
        let beside = Sound {
            seed: self.seed % 65536 + 1 + heard.noise / 64 % 65536,
            period: 4096,
        };
        let other = beside.at(band, frame);
        if frame < heard.since || frame >= heard.until {
            return other;
        }
        let part = (heard.noise % 64) as f32 / 64.0;
        let place = heard.from % 65536 + frame % 65536;
        self.at(band, place) * (1.0 - part) + other * part
    }

    // A reference of n frames, band after band. None count as 1.
    pub fn fill_reference(self, values: &mut [f32], n: usize) {
        fill_bands(values, n.max(1), |band, frame| self.at(band, frame));
    }

    // A window of n frames, band after band. None count as 1.
    pub fn fill_window(self, values: &mut [f32], heard: Heard, n: usize) {
        fill_bands(
            values,
            n.max(1),
            |band, frame| self.heard_at(heard, band, frame),
        );
    }
}

// The energy of a frame: about `energy` in the first `loud` frames, and 100 less in the others.
fn energy_at(energy: f64, loud: usize, frame: usize) -> f64 {
    if frame < loud {
        energy - numbers::float::real(frame % 5) * 0.25
    } else {
        energy - 100.0
    }
}

pub fn fill_energies(energies: &mut [f64], energy: f64, loud: usize) {
    for i in 0..energies.len() {
        energies[i] = energy_at(energy, loud, i);
    }
}
