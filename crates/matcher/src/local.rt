// Local search: the best place within a range of offsets.
ghost use Rattle.std.specs.Prelude.{◌*◌, ◌≤◌, length, ◌≡◌};
ghost use Rattle.matcher_spec.specs.Index.{lent_bands};
ghost use Rattle.matcher_spec.specs.Lent.{bands_in};
ghost use Rattle.matcher_spec.specs.Features.{Features};
ghost use Rattle.matcher_spec.specs.Search.{QueryFits, WorkRoom, local_found, local_search, place};
ghost use Rattle.matcher_filling.specs.Queries.{QueryFilled};

use crate::fronts::front_bands;
use matcher_candidates::candidate::best_candidate;
use matcher_candidates::comparison::Comparison;
use matcher_filling::query::{Query, fill_query};
use matcher_picks::candidates::nothing_found;
use matcher_spec::lent::{Features, Fine, Paired};
use matcher_spec::types::MatchResult;
use numbers::float::{at_least, at_most, is_finite, real};
use numbers::whole::{ceil, count, floor};

// The best place with an offset from `lower` to `upper`, both included, for a caller that makes one
// search of a window: crates compare_exports and matcher_replay. What the working buffers held does
// not matter, and what they hold afterwards is free.
// Kept: window and working slices one by one, here and below, since the slices are lent `&mut`: a
// struct of them has a ghost name for each in every clause, and `WorkRoom` stays a clause.
pub fn local_search(
    fine: &Fine<'_>,
    window: &Features<'_>,
    lower: f64,
    upper: f64,
    work32: &mut [f32],
    work64: &mut [f64],
) -> MatchResult
    requires values_len_1 { length window.now.values ≡ window.now.bands * length window.now.times }
    requires values_len_2 { WorkRoom fine.now.reference window.now.bands (length window.now.times) work32.old work64.old }
    ensures value { result.items ≡ local_search fine.now.reference (bands_in fine.now.bands) window.now lower upper }
{
    let Some(query) = fill_query(fine.reference, window, work32, work64) else {
        return nothing_found();
    };
    local_found(query, fine, lower, upper, work32, work64)
}

// The best place with an offset from `lower` to `upper`, both included, by the query that stands at
// the fronts of the working slices. It stays, so that a whole search may follow. Where it is the query
// that `fill_query` filled for a window, this is the window's search, and it is that query still.
pub fn local_found(
    query: Query,
    fine: &Fine<'_>,
    lower: f64,
    upper: f64,
    work32: &[f32],
    work64: &mut [f64],
) -> MatchResult
    requires fits { QueryFits fine.now.reference query.frames }
    requires work_room { WorkRoom fine.now.reference fine.now.reference.bands query.frames work32.now work64.old }
    ensures value { result.items ≡ local_found fine.now.reference (bands_in fine.now.bands) (lent_bands fine.now.reference.bands query.frames work32.now work64.old) query.start lower upper }
    ensures stays { lent_bands fine.now.reference.bands query.frames work32.now work64.new ≡ lent_bands fine.now.reference.bands query.frames work32.now work64.old }
    ensures searched { (w : Features) → QueryFilled fine.now.reference w query work32.now work64.old → result.items ≡ local_search fine.now.reference (bands_in fine.now.bands) w lower upper }
    ensures still_filled { (w : Features) → QueryFilled fine.now.reference w query work32.now work64.old → QueryFilled fine.now.reference w query work32.now work64.new }
{
    let energies_end = fine.reference.bands * (query.frames + 1);
    let (energy, scores) = work64.split_at_mut(energies_end);
    let compared = Comparison {
        reference: fine.reference,
        bands: Paired {
            reference: fine.bands,
            query: front_bands(fine.reference.bands, query.frames, work32, energy),
        },
        start: query.start,
    };
    local_candidates(&compared, lower, upper, scores)
}

// The best place with an offset from `lower` to `upper`. Scores are worked out in `scores`.
// Kept: room for a score of each frame is a clause here, in `candidates_around` and in
// `best_candidate`, since the slice is lent `&mut`.
#[tactic(auto, unfolding(matcher_spec::specs::Search::local_found))]
fn local_candidates(
    compared: &Comparison<'_>,
    lower: f64,
    upper: f64,
    scores: &mut [f64],
) -> MatchResult
    requires { compared.now.reference.frames ≤ length scores.old }
    ensures { result.items ≡ local_found compared.now.reference (bands_in compared.now.bands.reference) (bands_in compared.now.bands.query) compared.now.start lower upper }
{
    let last = compared.reference.frames - compared.bands.query.count;
    let low = at_least(0.0, ceil(place_of(compared, lower)));
    let high = at_most(real(last), floor(place_of(compared, upper)));
    let mut found = nothing_found();
    if is_finite(lower) && is_finite(upper) && lower <= upper && low <= high {
        found.push(best_candidate(compared, count(low), count(high), scores));
    }
    found
}

// The place of an offset, with its fraction.
fn place_of(compared: &Comparison<'_>, offset: f64) -> f64
    ensures { result ≡ place compared.now.reference (bands_in compared.now.bands.reference) (bands_in compared.now.bands.query) compared.now.start offset }
{
    (compared.start + offset - compared.reference.start_ms) / compared.reference.hop_ms
}
