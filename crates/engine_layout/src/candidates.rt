// The eight candidates of a snapshot, five words each; all eight, whatever their count says.
ghost use Rattle.std.specs.Prelude.{◌≡◌, ◌+◌, ◌≤◌, length};
ghost use Rattle.engine_layout.specs.Layout.{candidate_of, candidates_of};
ghost use Rattle.engine_layout.specs.Written.{candidate_words, candidates_to, placed};
ghost use Rattle.matcher_spec.specs.Limits.{candidates_most};

use crate::rows::{part, put};
use crate::word::Word;
use engine_spec::types::CandidateDiagnostics;
use matcher_spec::limits::CANDIDATES_MOST;
use std::array;

// Kept: five numbers by name, as in engine_words' `configuration_words`; what both share is `to_word`.
#[tactic(auto, unfolding(crate::specs::Layout::candidate_of, crate::specs::Written::candidate_words))]
pub fn candidate_words(c: CandidateDiagnostics) -> [u64; 5]
    ensures value { result ≡ candidate_words c }
    ensures back { candidate_of result ≡ c }
{
    [
        c.offset_ms.to_word(),
        c.coarse_offset_ms.to_word(),
        c.comparable_frame_count.to_word(),
        c.coverage_ratio.to_word(),
        c.combined_dense_score.to_word(),
    ]
}

#[tactic(auto, unfolding(crate::specs::Layout::candidate_of))]
pub fn candidate_of(words: &[u64; 5]) -> CandidateDiagnostics
    ensures { result ≡ candidate_of words.now }
{
    CandidateDiagnostics {
        offset_ms: f64::from_word(words[0]),
        coarse_offset_ms: f64::from_word(words[1]),
        comparable_frame_count: usize::from_word(words[2]),
        coverage_ratio: f64::from_word(words[3]),
        combined_dense_score: f64::from_word(words[4]),
    }
}

#[tactic(auto, unfolding(crate::specs::Written::candidates_to, crate::proofs::EightRows::BackTo), using(crate::proofs::Laws::none_laid, crate::proofs::EightRows::all_written, crate::proofs::EightRows::all_back))]
pub fn put_candidates(
    words: &mut [u64],
    at: usize,
    candidates: [CandidateDiagnostics; CANDIDATES_MOST],
)
    requires { at + 40 ≤ length words.old }
    ensures words_after { words.new ≡ placed at (candidates_to candidates_most candidates) words.old }
    ensures back { candidates_of (candidates_to candidates_most candidates) ≡ candidates }
{
    for i in 0..CANDIDATES_MOST {
        let row = candidate_words(candidates[i]);
        put(words, at + i * 5, &row);
    }
}

#[tactic(auto, unfolding(crate::specs::Layout::candidates_of))]
pub fn candidates_of(words: &[u64; 40]) -> [CandidateDiagnostics; CANDIDATES_MOST]
    ensures { result ≡ candidates_of words.now }
{
    array::from_fn(|i| candidate_of(part(words, 5 * i)))
}
