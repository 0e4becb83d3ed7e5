// Replays cases and the answers that the Rust gave, and says where the crate `matcher` answers
// otherwise. The list, on standard input, is made by `compare/run --matcher-list`. A case is a line
// of 14 words of 16 lowercase hexadecimal digits with a byte after each: eight words that make the
// case, hop and reach as f64 bit patterns (see `case::Case`), then the six answers.
#![tactic(auto)]

mod answers;
mod case;
mod digest;
mod small;
mod sound;

ghost use Rattle.std.specs.Prelude.{ℕ, ◌≡◌, ◌<◌, List, IfOk, length};
ghost use Rattle.std.specs.Io.KnownBytes.{Consumes, IsAtEnd};
ghost use Rattle.hexadecimal.specs.Hexadecimal.{list_most};
ghost use Rattle.std.proofs.Common.{rules};
ghost use Rattle.matcher_replay.specs.Agreement.{agrees_of, differing, lines};

use case::LINE;
use replays::lines::{Count, Replayed, replay_input};
use small::SmallCase;
use std::io;
use std::io::{Read, Stdout};

// The crate `matcher`.
#[derive(Drop)]
struct Matcher;

impl Replayed<LINE> for Matcher {
    ghost MayAgree = { λ line b. b ≡ agrees_of line };

    #[tactic(auto, unfolding(crate::specs::Agreement::agrees_of))]
    fn agrees(&mut self, line: &[u8; LINE]) -> bool {
        let Some(small) = SmallCase::of(line) else {
            return false;
        };
        answers::says(line, answers::answers_to(small))
    }

    ghost sized = { Prim.search rules };
}

// The buffer holds 275 lines and a part of one more, so a list that is too long ends in a line that is cut off,
// which counts as one that differs. Fails where the list cannot be read, or what it came to cannot
// be written.
// Kept: as numbers_replay's, since it is three lines, and the text would stay here.
fn main(rt: HostRuntime) -> io::Result<()> {
    let out = rt.stdout();
    let Count { lines, differ } = replay(&mut rt.stdin(), out)?;
    println!(out; "{lines} cases replayed, {differ} differ")
}

// Reads the list and replays it. The number of each line that differs is written, and one that
// cannot be counts all the same.
fn replay<R: Read>(input: &mut R, out: Stdout) -> io::Result<Count>
    ensures { IfOk result (λ count. (list : List ℕ) × Consumes (R.remaining input.old) (R.remaining input.new) list × (length list < list_most → IsAtEnd (R.remaining input.new)) × (count.lines ≡ lines list) × (count.differ ≡ differing (lines list) list)) }
{
    replay_input(&mut Matcher, input, out)
}
