// Lists that the replays read, and hexadecimal digits, as they write their numbers.
#![tactic(auto)]

ghost use Rattle.std.specs.Prelude.{◌+◌, ◌*◌, ◌≤◌, length, ◌≡◌, ◌<◌, ◌==◌, if◌then◌else◌, IfOk, take};
ghost use Rattle.std.specs.Io.KnownBytes.{Consumes, IsAtEnd};
ghost use Rattle.hexadecimal.specs.Hexadecimal.{digit_of, digits, spaced, word_at, word_from};

use std::io;
use std::io::Read;

// The digits of a word, and the bytes of one with the blank or line end after it.
const DIGITS: usize = 16;

pub const SPACED: usize = DIGITS + 1;

// The bytes of a list, at most. One that is longer ends in a line that is cut off.
pub const LIST: usize = 65536;

// Word k of a line of words; one that is malformed counts as the largest.
#[tactic(auto, unfolding(crate::specs::Hexadecimal::word_at, crate::specs::Hexadecimal::word_of))]
pub fn word_at(line: &[u8], k: usize) -> u64
    requires { k * spaced + digits ≤ length line.now }
    ensures { result ≡ word_at k line.now }
{
    let at = k * SPACED;
    let end = at + DIGITS;
    parse(&line[at..end]).unwrap_or(u64::MAX)
}

// The number that 16 lowercase hexadecimal digits write.
pub fn parse(text: &[u8]) -> Option<u64>
    requires { length text.now ≡ digits }
    ensures { result ≡ word_from 0 text.now }
{
    let mut value = 0;
    for byte in text {
        value = value * 16 + digit(*byte)?;
    }
    Some(value)
}

// A lowercase hexadecimal digit's value.
#[tactic(auto, unfolding(crate::specs::Hexadecimal::digit_of))]
fn digit(byte: u8) -> Option<u64>
    ensures { result ≡ (if digit_of byte == 16 then None else Some (digit_of byte)) }
{
    match byte {
        b'0'..=b'9' => Some((byte - b'0') as u64),
        b'a'..=b'f' => Some((byte - b'a' + 10) as u64),
        _ => None,
    }
}

// Fills a list from its front, as far as the input goes or the list has room, and says how far: that
// is what the input gave, and a list that has room left has the input to its end.
pub fn read_list<R: Read>(input: &mut R, list: &mut [u8]) -> io::Result<usize>
    ensures bound { IfOk result (λ size. size ≤ length list.new) }
    ensures bytes { IfOk result (λ size. Consumes (R.remaining input.old) (R.remaining input.new) (take size list.new)) }
    ensures end { IfOk result (λ size. size < length list.new → IsAtEnd (R.remaining input.new)) }
{
    let mut size = 0;

    // Kept: what the input gives says how many turns there are, so no `for` is plainer.
    while size < list.len() {
        let got = input.read(&mut list[size..])?;
        if got == 0 {
            return Ok(size);
        }
        size += got;
    }
    Ok(size)
}
