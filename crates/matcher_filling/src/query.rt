// A query: the window's bands centred, which a whole and a local search take.
ghost use Rattle.std.specs.Prelude.{◌*◌, length, true, ◌≡◌};
ghost use Rattle.matcher_spec.specs.Centring.{wide_hop};
ghost use Rattle.matcher_spec.specs.Search.{InRange, WorkRoom, searchable};
ghost use Rattle.matcher_filling.specs.Queries.{Answered};

use crate::centred::fill_centred;
use matcher_bands::centring::radius;
use matcher_bands::timeline::{accepts_timeline, are_valid};
use matcher_spec::lent::Features;
use matcher_spec::types::Reference;

// How many frames a query has, and the time of the first.
#[derive(Clone, Copy)]
pub struct Query {
    pub frames: usize,
    pub start: f64,
}

// Fills the query of a window, and answers it; none where the window is not searchable. The query's
// values stand at the front of `work32` and its energies at the front of `work64`; what was there
// does not matter.
// Kept: two working slices, since in a struct each would need a ghost name in the clauses.
#[tactic(auto, using(matcher_spec::proofs::RadiusLaw::radius_small))]
pub fn fill_query(
    reference: Reference,
    window: &Features<'_>,
    work32: &mut [f32],
    work64: &mut [f64],
) -> Option<Query>
    requires in_range { InRange reference }
    requires values_len_1 { length window.now.values ≡ window.now.bands * length window.now.times }
    requires values_len_2 { WorkRoom reference window.now.bands (length window.now.times) work32.old work64.old }
    ensures { Answered reference window.now result work32.new work64.new }
{
    if !is_searchable(reference, window) {
        return None;
    }
    let radius = radius(reference.hop_ms);
    fill_centred(work32, work64, window, radius, radius);
    Some(Query {
        frames: window.times.len() - 2 * radius,
        start: window.times[radius],
    })
}

// Whether a search begins.
#[tactic(auto, using(matcher_spec::proofs::RadiusLaw::radius_small), unfolding(matcher_spec::specs::Search::searchable))]
fn is_searchable(reference: Reference, window: &Features<'_>) -> bool
    requires { wide_hop reference.hop_ms ≡ true }
    ensures { result ≡ searchable reference window.now }
{
    let margin = 2 * radius(reference.hop_ms);
    let frames = window.times.len();
    accepts_timeline(
        reference.bands,
        reference.hop_ms,
        window.bands,
        window.times,
    ) & ((frames > margin + 16)
        & (are_valid(window.values) & (frames.saturating_sub(margin) <= reference.frames)))
}
