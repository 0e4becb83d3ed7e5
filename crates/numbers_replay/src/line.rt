// A line of the list, and whether the crate `numbers` agrees with it.
ghost use Rattle.std.specs.Prelude.{◌≡◌};
ghost use Rattle.numbers_replay.specs.Cases.{agrees_of, function_of, read_of, reply_of};

use numbers::exponential::{exp, ten_to};
use numbers::float::widen;
use numbers::logarithm::{ln, ln_1p, log10};
use numbers::narrow::narrow;
use numbers::root::root;
use numbers::whole::{ceil, floor, round};
use std::num::{f64_from_bits_with_nan, f64_to_bits_with_nan};

// The bytes of a line: a name of six, two words of 16 digits, and a byte after each.
pub const LINE: usize = 41;

// Whether a line is well-formed and the crate's answer is the line's, bit for bit.
#[tactic(auto, unfolding(crate::specs::Cases::agrees_of))]
pub fn agrees(line: &[u8; LINE]) -> bool
    ensures { result ≡ agrees_of (read_of line.now) }
{
    let Some(case) = parse(line) else {
        return false;
    };
    let reply = case.function.of(f64_from_bits_with_nan(case.input));
    f64_to_bits_with_nan(reply) == case.answer
}

// The functions of the crate `numbers` that the list names.
#[derive(Clone, Copy)]
enum Function {
    Round,
    Floor,
    Ceil,
    Narrow,
    Root,
    Exp,
    TenTo,
    Ln,
    Ln1p,
    Log10,
}

impl Function {
    // The function of a name that is padded to six bytes.
    #[tactic(auto, unfolding(crate::specs::Cases::function_of))]
    fn named(name: &[u8]) -> Option<Function>
        ensures { result ≡ function_of name.now }
    {
        let is = |text: &[u8]| name == text;
        if is(b"round ") {
            Some(Function::Round)
        } else if is(b"floor ") {
            Some(Function::Floor)
        } else if is(b"ceil  ") {
            Some(Function::Ceil)
        } else if is(b"narrow") {
            Some(Function::Narrow)
        } else if is(b"root  ") {
            Some(Function::Root)
        } else if is(b"exp   ") {
            Some(Function::Exp)
        } else if is(b"ten_to") {
            Some(Function::TenTo)
        } else if is(b"ln    ") {
            Some(Function::Ln)
        } else if is(b"ln_1p ") {
            Some(Function::Ln1p)
        } else if is(b"log10 ") {
            Some(Function::Log10)
        } else {
            None
        }
    }

    // f(x). An f32 goes in and comes out widened.
    #[tactic(auto, unfolding(crate::specs::Cases::reply_of))]
    fn of(self, x: f64) -> f64
        ensures { result ≡ reply_of self x }
    {
        match self {
            Function::Round => round(x),
            Function::Floor => floor(x),
            Function::Ceil => ceil(x),
            Function::Narrow => widen(narrow(x)),
            Function::Root => root(x),
            Function::Exp => exp(x),
            Function::TenTo => ten_to(x),
            Function::Ln => ln(x),
            Function::Ln1p => widen(ln_1p(narrow(x))),
            Function::Log10 => log10(x),
        }
    }
}

// What a line says; input and answer are bit patterns.
#[derive(Clone, Copy)]
struct Case {
    function: Function,
    input: u64,
    answer: u64,
}

// What a line says, where it is well-formed.
#[tactic(auto, unfolding(crate::specs::Cases::read_of))]
fn parse(line: &[u8; LINE]) -> Option<Case>
    ensures { result ≡ read_of line.now }
{
    let parted = (line[6] == b' ') & (line[23] == b' ') & (line[40] == b'\n');
    if !parted {
        return None;
    }
    Some(Case {
        function: Function::named(&line[..6])?,
        input: hexadecimal::parse(&line[7..23])?,
        answer: hexadecimal::parse(&line[24..40])?,
    })
}
