// The words of a line, as counts, as floats, and as what is wrong with what is handed in.
ghost use Rattle.std.specs.Prelude.{◌<◌};
ghost use Rattle.engine_lines.specs.Lines.{line_words};

use engine_cases::faults::{Fault, Spoiled};
use hexadecimal::{SPACED, word_at};
use std::num::f64_from_bits_with_nan;

// The bytes of a line: 15 words.
pub const LINE: usize = 15 * SPACED;

pub fn count_at(line: &[u8; LINE], k: usize) -> usize
    requires { k < line_words }
{
    word_at(line, k) as usize
}

pub fn float_at(line: &[u8; LINE], k: usize) -> f64
    requires { k < line_words }
{
    f64_from_bits_with_nan(word_at(line, k))
}

// What is wrong is said at one place of both kinds of line.
pub(crate) fn spoiled_by(line: &[u8; LINE]) -> Spoiled {
    Spoiled {
        fault: Fault::numbered(word_at(line, 10)),
        at: count_at(line, 11),
    }
}
