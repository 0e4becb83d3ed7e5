// Lists of lines that say what was answered, replayed line by line.
ghost use Rattle.std.specs.Prelude.{ℕ, ◌≡◌, ◌<◌, ◌≤◌, ◌^◌, Bool, not, List, filter, length, IfOk};
ghost use Rattle.replays.specs.Lines.{Decides, differing, lines};
ghost use Rattle.replays.specs.Counts.{Counts};

use hexadecimal::{LIST, read_list};
use std::io;
use std::io::{Read, Stdout};
use std::num::NonZeroUsize;

// What answers the lines of a list, each of so many bytes.
pub trait Replayed<const LINE: usize> {
    // A line may be found to agree, or not to. An answer may depend on the lines before.
    ghost MayAgree: { List ℕ → Bool → Type 0 };

    // Whether a line says what is answered to it.
    fn agrees(&mut self, line: &[u8; LINE]) -> bool
        ensures { MayAgree line.now result };

    // Writes that the line of a number differs.
    fn report(&self, out: Stdout, number: NonZeroUsize) -> io::Result<()> {
        println!(out; "line {number} differs")
    }

    // Writes that the last line differs, since it is cut off.
    fn report_cut_off(&self, out: Stdout, number: NonZeroUsize) -> io::Result<()> {
        self.report(out, number)
    }

    // A line has a byte at least, and no more than an array can have.
    ghost sized: { (0 < LINE) × (LINE < 2 ^ 63) };
}

// What a list comes to.
#[derive(Clone, Copy)]
pub struct Count {
    pub lines: usize,
    pub differ: usize,
}

// Reads a list and replays it. Fails where it cannot be read.
pub fn replay_input<const LINE: usize, A: Replayed<LINE>, R: Read>(
    answers: &mut A,
    input: &mut R,
    out: Stdout,
) -> io::Result<Count>
    ensures { IfOk result (Counts LINE A.MayAgree (R.remaining input.old) (R.remaining input.new)) }
{
    let mut list = [0u8; LIST];
    let size = read_list(input, &mut list)?;
    Ok(Count {
        lines: size.div_ceil(LINE),
        differ: replay(answers, out, &list[..size]),
    })
}

// How many lines of a list differ from what is answered to them or are cut off. Each of them is
// written; one that cannot be counts all the same.
pub fn replay<const LINE: usize, A: Replayed<LINE>>(
    answers: &mut A,
    out: Stdout,
    list: &[u8],
) -> usize
    ensures { (agrees : List ℕ → Bool) → Decides agrees A.MayAgree → result ≡ differing LINE agrees (lines LINE list.now) list.now }
{
    let (lines, rest) = list.as_chunks();
    let differ = replay_lines(answers, out, lines);
    if rest.is_empty() {
        return differ;
    }
    let _ = answers.report_cut_off(out, number_after(lines.len()));
    differ + 1
}

// How many lines differ from what is answered to them.
// Kept: counted in a loop, which also writes the number of each.
fn replay_lines<const LINE: usize, A: Replayed<LINE>>(
    answers: &mut A,
    out: Stdout,
    lines: &[[u8; LINE]],
) -> usize
    ensures bound { result ≤ length lines.now }
    ensures counted { (agrees : List ℕ → Bool) → Decides agrees A.MayAgree → result ≡ length (filter (λ line. not (agrees line)) lines.now) }
{
    let mut differ = 0;
    for (before, line) in lines.iter().enumerate() {
        if !answers.agrees(line) {
            let _ = answers.report(out, number_after(before));
            differ += 1;
        }
    }
    differ
}

// The number of the line after the first `before`.
fn number_after(before: usize) -> NonZeroUsize {
    NonZeroUsize::MIN.saturating_add(before)
}
