// What is answered to a line, and whether the line says the same.
ghost use Rattle.std.specs.Prelude.{◌≡◌};
ghost use Rattle.engine_lines.specs.Lines.{agreement_with, in_all};

use crate::line::LINE;
use hexadecimal::word_at;

// The answer's number, a digest of the state after it, and one of what it shows: of an opening the
// four index buffers, of a submission the snapshot (0 where that is refused).
#[derive(Drop)]
pub struct Answers {
    pub answer: u64,
    pub state: u64,
    pub shown: u64,
}

// In what a line and the engine agree.
// Kept: three truth values of one line, each of which is written; none says that another is missing.
#[derive(Clone, Copy)]
pub struct Agreement {
    pub answer: bool,
    pub state: bool,
    pub shown: bool,
}

impl Agreement {
    // Of a line, with what is answered to it.
    #[tactic(auto, unfolding(crate::specs::Lines::agreement_with))]
    pub fn with(line: &[u8; LINE], found: Answers) -> Agreement
        ensures { result ≡ agreement_with line.now found }
    {
        Agreement {
            answer: found.answer == word_at(line, 12),
            state: found.state == word_at(line, 13),
            shown: found.shown == word_at(line, 14),
        }
    }

    // In everything.
    #[tactic(auto, unfolding(crate::specs::Lines::in_all))]
    pub fn in_all(self) -> bool
        ensures { result ≡ in_all self }
    {
        self.answer && self.state && self.shown
    }
}
