// The numbers that the calls answer with.
ghost use Rattle.std.specs.Prelude.{◌≡◌};
ghost use Rattle.kistovab.specs.Codes.{kind_code};

use engine_spec::types::AnswerKind;

pub const COMPUTED: u32 = 0;

pub const REREAD: u32 = 100;

pub const NO_AGE: u32 = 101;

pub const WORDS_TOO_SHORT: u32 = 255;

// 0 computed, `REREAD` a re-reading.
// Kept: the C interface's numbers; `as` and `From` would have them in engine_spec, which knows no C.
#[tactic(auto, unfolding(crate::specs::Codes::kind_code))]
pub fn code_of(answer: AnswerKind) -> u32
    ensures { result ≡ kind_code answer }
{
    match answer {
        AnswerKind::Computed => COMPUTED,
        AnswerKind::Reread => REREAD,
    }
}
