// A submission of the list, and the window that it makes.
use crate::line::{LINE, count_at, float_at, spoiled_by};
use crate::opening;
use crate::opening::Opening;
use engine_cases::faults::{Fault, Spoiled, part};
use engine_cases::sound::{Heard, fill_energies};
use engine_spec::lent::Window;
use hexadecimal::word_at;
use kistovab::sizes::kistovab_fine_length;
use replays::sound::fill_times;

// The most frames and bands of a window: one band more than a reference's.
pub(crate) const FRAMES: usize = 120;

pub(crate) const BANDS: usize = opening::BANDS + 1;

pub(crate) const VALUES: usize = BANDS * FRAMES;

// What makes a window, and what comes with it.
#[derive(Clone, Copy)]
pub struct Submission {
    pub begin: f64,
    pub frames: usize,
    pub heard: Heard,
    pub energy: f64,
    pub loud: usize,
    pub clock: f64,
    pub spoiled: Spoiled,
}

impl Submission {
    // What a line says.
    pub fn of(line: &[u8; LINE]) -> Submission {
        let heard = Heard {
            from: count_at(line, 3),
            since: count_at(line, 4),
            until: count_at(line, 5),
            noise: word_at(line, 6),
        };
        Submission {
            begin: float_at(line, 1),
            frames: count_at(line, 2),
            heard,
            energy: float_at(line, 7),
            loud: count_at(line, 8),
            clock: float_at(line, 9),
            spoiled: spoiled_by(line),
        }
    }

    // The window, all of it, of what is heard of the reference.
    pub(crate) fn made(self, o: Opening) -> Made {
        let mut times = [0.0f64; FRAMES];
        let mut energies = [0.0f64; FRAMES];
        let mut values = [0.0f32; VALUES];
        fill_times(&mut times, self.begin, o.hop);
        self.spoiled.spoil_times(&mut times, o.hop);
        fill_energies(&mut energies, self.energy, self.loud);
        o.sound.fill_window(&mut values, self.heard, self.frames);
        self.spoiled.spoil_values(&mut values);
        Made {
            times,
            energies,
            values,
        }
    }

    // The bands of it that there are.
    pub(crate) fn bands(self, o: Opening) -> usize {
        self.spoiled.made_bands(o.bands)
    }

    // How much is lent of what has to hold `needed`.
    pub(crate) fn lent(self, short: Fault, needed: usize) -> usize {
        self.spoiled.lent(short, needed, needed)
    }
}

// A window as it is made: as many times, energies and values as there may be.
#[derive(Drop)]
pub(crate) struct Made {
    times: [f64; FRAMES],
    energies: [f64; FRAMES],
    values: [f32; VALUES],
}

impl Made {
    // As much of it as is lent.
    pub(crate) fn lent(&self, o: Opening, s: Submission) -> Window<'_> {
        let bands = s.bands(o);
        let size = kistovab_fine_length(s.frames, bands);
        Window {
            bands: s.spoiled.said_bands(bands),
            times: part(&self.times, s.frames),
            energies: part(&self.energies, s.lent(Fault::FewEnergies, s.frames)),
            values: part(&self.values, s.lent(Fault::FewValues, size)),
        }
    }
}
