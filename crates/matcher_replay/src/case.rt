// A case of the list.
ghost use Rattle.std.specs.Prelude.{◌≡◌};
ghost use Rattle.matcher_replay.specs.Cases.{case_of, float_of, is_small};

use hexadecimal::{SPACED, word_at};
use std::num::f64_from_bits_with_nan;

// The bytes of a line: 14 words.
pub const LINE: usize = 14 * SPACED;

// The most of a case.
pub const CASE_BANDS: usize = 4;

pub const CASE_FRAMES: usize = 400;

pub const CASE_WINDOW: usize = 120;

// Seeds lie below.
const SEEDS_END: u64 = 65536;

// What makes a case. The window is cut out of the reference at the frame `from`, and the local
// search looks `reach` ms to either side of it.
#[derive(Clone, Copy)]
pub struct Case {
    pub seed: u64,
    pub hop: f64,
    pub period: usize,
    pub bands: usize,
    pub frames: usize,
    pub window: usize,
    pub from: usize,
    pub reach: f64,
}

impl Case {
    // The case that a line says.
    #[tactic(auto, unfolding(crate::specs::Cases::case_of))]
    pub fn of(line: &[u8; LINE]) -> Case
        ensures { result ≡ case_of line.now }
    {
        Case {
            seed: word_at(line, 0),
            hop: float_of(word_at(line, 1)),
            period: word_at(line, 2) as usize,
            bands: word_at(line, 3) as usize,
            frames: word_at(line, 4) as usize,
            window: word_at(line, 5) as usize,
            from: word_at(line, 6) as usize,
            reach: float_of(word_at(line, 7)),
        }
    }

    // Whether the case is within the limits of this program.
    pub fn is_small(self) -> bool
        ensures { result ≡ is_small self }
    {
        self.seed < SEEDS_END
            && self.hop >= 1.0
            && self.period > 0
            && self.bands > 0
            && self.bands <= CASE_BANDS
            && self.frames > 0
            && self.frames <= CASE_FRAMES
            && self.window > 0
            && self.window <= CASE_WINDOW
            && self.from <= CASE_FRAMES
    }
}

// The float of a pattern up to plus infinity's, and 0.0 of any other.
#[tactic(auto, unfolding(crate::specs::Cases::float_of))]
fn float_of(bits: u64) -> f64
    ensures { result ≡ float_of bits }
{
    if bits <= 0x7ff0_0000_0000_0000 {
        f64_from_bits_with_nan(bits)
    } else {
        0.0
    }
}
