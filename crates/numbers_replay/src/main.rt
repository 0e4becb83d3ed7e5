// Replays a list of numbers and of the answers that the Rust gave, and says where the crate
// `numbers` answers otherwise, bit for bit. The list, on standard input, is made by
// `compare/run --list`. A case is a line of 41 bytes: the function's name, padded with blanks to
// six, and the f64 bit patterns of the input and of the answer, 16 lowercase hexadecimal digits
// each. An f32 is given widened, and a NaN as 7ff8000000000000.
#![tactic(auto)]

mod line;

ghost use Rattle.std.specs.Prelude.{ℕ, ◌≡◌, ◌<◌, List, IfOk, length};
ghost use Rattle.std.specs.Io.KnownBytes.{Consumes, IsAtEnd};
ghost use Rattle.hexadecimal.specs.Hexadecimal.{list_most};
ghost use Rattle.std.proofs.Common.{rules};
ghost use Rattle.numbers_replay.specs.Cases.{agrees_of, differing, lines, read_of};

use line::LINE;
use replays::lines::{Count, Replayed, replay_input};
use std::io;
use std::io::{Read, Stdout};

// The functions of the crate `numbers`.
#[derive(Drop)]
struct Numbers;

impl Replayed<LINE> for Numbers {
    ghost MayAgree = { λ line b. b ≡ agrees_of (read_of line) };

    fn agrees(&mut self, line: &[u8; LINE]) -> bool {
        line::agrees(line)
    }

    ghost sized = { Prim.search rules };
}

// The buffer holds 1,598 lines and a part of one more, so a list that is too long ends in a line that is cut off,
// which counts as one that differs. Fails where the list cannot be read, or what it came to cannot
// be written.
// Kept: as matcher_replay's, since it is three lines, and the text would stay here.
fn main(rt: HostRuntime) -> io::Result<()> {
    let out = rt.stdout();
    let Count { lines, differ } = replay(&mut rt.stdin(), out)?;
    println!(out; "{lines} numbers replayed, {differ} differ")
}

// Reads the list and replays it. The number of each line that differs is written, and one that
// cannot be counts all the same.
fn replay<R: Read>(input: &mut R, out: Stdout) -> io::Result<Count>
    ensures { IfOk result (λ count. (list : List ℕ) × Consumes (R.remaining input.old) (R.remaining input.new) list × (length list < list_most → IsAtEnd (R.remaining input.new)) × (count.lines ≡ lines list) × (count.differ ≡ differing (lines list) list)) }
{
    replay_input(&mut Numbers, input, out)
}
