// An opening of the list, and the reference that it makes.
use crate::line::{LINE, count_at, float_at, spoiled_by};
use engine_cases::faults::Spoiled;
use engine_cases::sound::Sound;
use hexadecimal::word_at;
use replays::sound::fill_times;

// The most frames and bands of a reference whose index the program's buffers hold.
pub const FRAMES: usize = 400;

pub const BANDS: usize = 4;

pub const VALUES: usize = BANDS * FRAMES;

// What makes a reference. The index buffers are lent whole: some references need longer ones.
#[derive(Clone, Copy)]
pub struct Opening {
    pub sound: Sound,
    pub hop: f64,
    pub bands: usize,
    pub frames: usize,
    pub start: f64,
    pub readiness: f64,
    pub tracking: f64,
    pub fraction: f64,
    pub spoiled: Spoiled,
}

impl Opening {
    // What a line says.
    pub fn of(line: &[u8; LINE]) -> Opening {
        Opening {
            sound: Sound::new(word_at(line, 1), count_at(line, 3)),
            hop: float_at(line, 2),
            bands: count_at(line, 4),
            frames: count_at(line, 5),
            start: float_at(line, 6),
            readiness: float_at(line, 7),
            tracking: float_at(line, 8),
            fraction: float_at(line, 9),
            spoiled: spoiled_by(line),
        }
    }

    // The reference, all of it.
    pub(crate) fn reference(self) -> Reference {
        let mut times = [0.0f64; FRAMES];
        let mut values = [0.0f32; VALUES];
        fill_times(&mut times, self.start, self.hop);
        self.spoiled.spoil_times(&mut times, self.hop);
        self.sound.fill_reference(&mut values, self.frames);
        self.spoiled.spoil_values(&mut values);
        Reference { times, values }
    }
}

// A reference as it is made: as many times and values as there may be.
#[derive(Drop)]
pub(crate) struct Reference {
    pub times: [f64; FRAMES],
    pub values: [f32; VALUES],
}
