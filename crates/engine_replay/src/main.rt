// Replays sessions of the whole engine and says where it answers otherwise than the Rust did. The
// list, on standard input, is made by `compare/run --engine-list`. A line is 15 words of 16
// lowercase hexadecimal digits with a byte after each: 12 that make an opening (the first is 0) or a
// submission (1), see `opening::Opening` and `submission::Submission`, then the three answers.
#![tactic(auto)]

mod sessions;

use engine_lines::line::LINE;
use hexadecimal::{LIST, read_list};
use replays::lines::replay;
use sessions::{Sessions, opens};
use std::io;

// The buffer holds 257 lines and a byte, so a list that is too long ends in a line that is cut off,
// which counts as one that differs. Fails where the list cannot be read, or what it came to cannot
// be written.
fn main(rt: HostRuntime) -> io::Result<()> {
    let out = rt.stdout();
    let mut list = [0u8; LIST];
    let size = read_list(&mut rt.stdin(), &mut list)?;
    let list = &list[..size];
    let differ = replay(&mut Sessions::new(), out, list);
    let (lines, _) = list.as_chunks::<LINE>();
    let sessions = lines.iter().filter(|line| opens(line)).count();
    let submissions = lines.len().saturating_sub(sessions);
    println!(out; "{sessions} sessions, {submissions} submissions replayed, {differ} differ")
}
