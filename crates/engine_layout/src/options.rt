// Values that may be missing: a tag, 1 where the value is there, and its words, zeros where it is
// not. Any tag but 1 reads as none.
ghost use Rattle.std.specs.Prelude.{◌≡◌, length};
ghost use Rattle.engine_layout.specs.Layout.{estimate_of, hypothesis_of, option_of};
ghost use Rattle.engine_layout.specs.Written.{estimate_words, hypothesis_words, tag, word_or_zero};

use crate::word::Word;
use engine_spec::types::{Estimate, Hypothesis, RecordedMs, ReferenceMs};

pub fn tag<T: Word>(x: Option<T>) -> u64
    ensures { result ≡ tag x }
{
    x.is_some() as u64
}

#[tactic(auto, unfolding(crate::specs::Layout::option_of))]
pub fn word_or_zero<T: Word>(x: Option<T>) -> u64
    ensures value { result ≡ word_or_zero T.word x }
    ensures back { option_of T.of_word (tag x) result ≡ x }
{
    x.map_or(0, |x| x.to_word())
}

#[tactic(auto, unfolding(crate::specs::Layout::option_of))]
pub fn option_of<T: Word>(tag: u64, n: u64) -> Option<T>
    ensures { result ≡ option_of T.of_word tag n }
{
    (tag == 1).then(|| T::from_word(n))
}

// Kept: two records, here and below, of three and of four fields; for one pair of functions over both
// the length 1 + N would have to be computed, and Rattle has no computed const argument.
#[tactic(auto, unfolding(crate::specs::Layout::estimate_of, crate::specs::Written::estimate_words))]
pub fn estimate_words(e: Option<Estimate>) -> [u64; 4]
    ensures value { result ≡ estimate_words e }
    ensures back { estimate_of result ≡ e }
{
    match e {
        None => [0; 4],
        Some(e) => [
            1,
            e.query_endpoint_recorded_time_ms.to_word(),
            e.reference_time_ms.to_word(),
            e.offset_ms.to_word(),
        ],
    }
}

#[tactic(auto, unfolding(crate::specs::Layout::estimate_of))]
pub fn estimate_of(words: &[u64; 4]) -> Option<Estimate>
    ensures { result ≡ estimate_of words.now }
{
    if words[0] != 1 {
        return None;
    }
    Some(Estimate {
        query_endpoint_recorded_time_ms: RecordedMs::from_word(words[1]),
        reference_time_ms: ReferenceMs::from_word(words[2]),
        offset_ms: f64::from_word(words[3]),
    })
}

#[tactic(auto, unfolding(crate::specs::Layout::hypothesis_of, crate::specs::Written::hypothesis_words))]
pub fn hypothesis_words(h: Option<Hypothesis>) -> [u64; 5]
    ensures value { result ≡ hypothesis_words h }
    ensures back { hypothesis_of result ≡ h }
{
    match h {
        None => [0; 5],
        Some(h) => [
            1,
            h.offset_ms.to_word(),
            h.first_evidence_ms.to_word(),
            h.last_evidence_ms.to_word(),
            h.correlation.to_word(),
        ],
    }
}

#[tactic(auto, unfolding(crate::specs::Layout::hypothesis_of))]
pub fn hypothesis_of(words: &[u64; 5]) -> Option<Hypothesis>
    ensures { result ≡ hypothesis_of words.now }
{
    if words[0] != 1 {
        return None;
    }
    Some(Hypothesis {
        offset_ms: f64::from_word(words[1]),
        first_evidence_ms: RecordedMs::from_word(words[2]),
        last_evidence_ms: RecordedMs::from_word(words[3]),
        correlation: f64::from_word(words[4]),
    })
}
