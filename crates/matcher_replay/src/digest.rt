// One word for the candidates of a search.
ghost use Rattle.std.specs.Prelude.{◌≡◌};
ghost use Rattle.matcher_spec.specs.Candidates.{eight_of};
ghost use Rattle.matcher_replay.specs.Digests.{with_candidate, with_candidates};

use matcher_picks::candidates::{eight_of, numbers_of};
use matcher_spec::types::{Candidate, MatchResult};
use replays::digest::with_all;

// The five numbers of a candidate.
#[tactic(auto, unfolding(crate::specs::Digests::with_candidate))]
fn with_candidate(word: u64, c: Candidate) -> u64
    ensures { result ≡ with_candidate word c }
{
    with_all(word, &numbers_of(c))
}

// Those of all that a search found, the blank ones behind the last too.
pub fn of_candidates(found: &MatchResult) -> u64
    ensures { result ≡ with_candidates 0 (eight_of found.now.items) }
{
    eight_of(found)
        .iter()
        .fold(0, |word, c| with_candidate(word, *c))
}
