// Whole search: the candidates of the whole reference.
ghost use Rattle.std.specs.Prelude.{◌+◌, ◌-◌, ◌*◌, ◌<◌, ◌/◌, ◌≤◌, length, ◌≡◌};
ghost use Rattle.std.specs.List.{All};
ghost use Rattle.matcher_spec.specs.Candidates.{sorted};
ghost use Rattle.matcher_spec.specs.Energy.{Holds, reduced, whole_energies};
ghost use Rattle.matcher_spec.specs.Features.{Features};
ghost use Rattle.matcher_spec.specs.Index.{lent_bands};
ghost use Rattle.matcher_spec.specs.Lent.{bands_in};
ghost use Rattle.matcher_spec.specs.Limits.{bands_most, frames_most};
ghost use Rattle.matcher_spec.specs.Peaks.{peaks};
ghost use Rattle.matcher_spec.specs.Scores.{correlations};
ghost use Rattle.matcher_spec.specs.Search.{QueryFits, WorkRoom, candidates_at, coarse_scores, separation, whole_found, whole_search};
ghost use Rattle.matcher_filling.specs.Queries.{QueryFilled};

use crate::fronts::front_bands;
use matcher_bands::energy::reduce_with_energies;
use matcher_candidates::candidate::{best_candidate, score_places};
use matcher_candidates::comparison::Comparison;
use matcher_filling::query::{Query, fill_query};
use matcher_picks::candidates::{insert_by_score, keep_independent, nothing_found};
use matcher_picks::peaks::{Picked, pick_peaks};
use matcher_spec::constants::APART_MS;
use matcher_spec::lent::{Bands, Features, Matcher, Paired};
use matcher_spec::types::MatchResult;
use numbers::whole::count;

// The candidates of the whole reference, for a caller that makes one search of a window: crates
// compare_exports and matcher_replay. What the working buffers held does not matter, and what they
// hold afterwards is free.
// Kept: window and working slices one by one, as in `local_search`.
pub fn whole_search(
    matcher: &Matcher<'_>,
    window: &Features<'_>,
    work32: &mut [f32],
    work64: &mut [f64],
) -> MatchResult
    requires values_len_1 { length window.now.values ≡ window.now.bands * length window.now.times }
    requires values_len_2 { WorkRoom matcher.now.reference window.now.bands (length window.now.times) work32.old work64.old }
    ensures value { result.items ≡ whole_search matcher.now window.now }
{
    let Some(query) = fill_query(matcher.fine.reference, window, work32, work64) else {
        return nothing_found();
    };
    whole_found(query, matcher, work32, work64)
}

// The candidates of the whole reference, by the query that stands at the fronts of the working
// slices: those of the window that `fill_query` filled it for. What the slices hold afterwards is free.
pub fn whole_found(
    query: Query,
    matcher: &Matcher<'_>,
    work32: &mut [f32],
    work64: &mut [f64],
) -> MatchResult
    requires fits { QueryFits matcher.now.reference query.frames }
    requires work_room { WorkRoom matcher.now.reference matcher.now.reference.bands query.frames work32.old work64.old }
    ensures value { result.items ≡ whole_found matcher.now (lent_bands matcher.now.reference.bands query.frames work32.old work64.old) query.start }
    ensures searched { (w : Features) → QueryFilled matcher.now.reference w query work32.old work64.old → result.items ≡ whole_search matcher.now w }
{
    let fine = &matcher.fine;
    let bands = fine.reference.bands;
    let n = query.frames;
    let (values, averages) = work32.split_at_mut(bands * n);
    let (energy, rest) = work64.split_at_mut(bands * (n + 1));
    let compared = Comparison {
        reference: fine.reference,
        bands: Paired {
            reference: fine.bands,
            query: front_bands(bands, n, values, energy),
        },
        start: query.start,
    };
    whole_candidates(&compared, &matcher.coarse, averages, rest)
}

// The candidates of the whole reference. The query's averages by fours are worked out in
// `averages`, their energies and all scores in `work`.
#[tactic(auto, unfolding(matcher_spec::specs::Search::whole_found))]
fn whole_candidates(
    compared: &Comparison<'_>,
    coarse: &Bands<'_>,
    averages: &mut [f32],
    work: &mut [f64],
) -> MatchResult
    requires same_bands { coarse.now.bands ≡ compared.now.reference.bands }
    requires some { 0 < coarse.now.bands }
    requires fourth { coarse.now.count ≡ compared.now.reference.frames / 4 }
    requires averages_room { compared.now.bands.query.bands * (compared.now.bands.query.count / 4) ≤ length averages.old }
    requires work_room { compared.now.bands.query.bands * (compared.now.bands.query.count / 4 + 1) + compared.now.reference.frames ≤ length work.old }
    ensures { result.items ≡ whole_found (record { reference = compared.now.reference; fine = bands_in compared.now.bands.reference; coarse = bands_in coarse.now }) (bands_in compared.now.bands.query) compared.now.start }
{
    let apart = peak_separation(compared.reference.hop_ms);
    let paired = Paired {
        reference: *coarse,
        query: compared.bands.query,
    };
    let picked = coarse_peaks(&paired, apart, averages, work);
    let found = candidates_around(compared, &picked, work);
    keep_independent(&found)
}

// The peaks of the scores of the bands averaged by fours, which the reference's are already. The
// query's averages are worked out in `averages`, their energies and the scores behind them in
// `work`.
// Kept: few and short, here and below, see `Paired`.
#[tactic(auto, unfolding(matcher_spec::specs::Search::coarse_scores))]
fn coarse_peaks(
    paired: &Paired<'_>,
    separation: usize,
    averages: &mut [f32],
    work: &mut [f64],
) -> Picked
    requires some { 0 < paired.now.reference.bands }
    requires few { paired.now.reference.bands ≤ bands_most }
    requires short { paired.now.reference.count ≤ frames_most }
    requires within { paired.now.query.count / 4 ≤ paired.now.reference.count }
    requires averages_room { paired.now.query.bands * (paired.now.query.count / 4) ≤ length averages.old }
    requires work_room { paired.now.query.bands * (paired.now.query.count / 4 + 1) + (paired.now.reference.count + 1) ≤ length work.old }
    ensures value { result.items ≡ peaks (coarse_scores paired.now.reference.bands (bands_in paired.now.reference) (bands_in paired.now.query)) separation }
    ensures in_bounds { All (λ place. place ≤ paired.now.reference.count) result.items }
{
    let query = &paired.query;
    let size = query.count / 4;
    let (energy, scores) = work.split_at_mut(query.bands * (size + 1));
    average_query(averages, energy, query);
    let reduced = Paired {
        reference: paired.reference,
        query: front_bands(query.bands, size, averages, energy),
    };
    all_peaks(&reduced, separation, scores)
}

// The peaks of the query's scores at all places. They are worked out at the front of `scores`.
fn all_peaks(paired: &Paired<'_>, separation: usize, scores: &mut [f64]) -> Picked
    requires few { paired.now.reference.bands ≤ bands_most }
    requires short { paired.now.reference.count ≤ frames_most }
    requires within { paired.now.query.count ≤ paired.now.reference.count }
    requires room { paired.now.reference.count + 1 ≤ length scores.old }
    ensures value { result.items ≡ peaks (correlations paired.now.reference.bands (bands_in paired.now.reference) paired.now.query.count paired.now.query.values.now (whole_energies paired.now.query.bands (bands_in paired.now.query)) 0 (paired.now.reference.count - paired.now.query.count + 1)) separation }
    ensures in_bounds { All (λ place. place ≤ paired.now.reference.count) result.items }
{
    let scores = &mut scores[..paired.reference.count - paired.query.count + 1];
    score_places(scores, paired, 0);
    pick_peaks(scores, separation)
}

// Averages the query's bands by fours, and sums up their energies.
fn average_query(averages: &mut [f32], energy: &mut [f64], query: &Bands<'_>)
    requires { Holds query.now.bands (query.now.count / 4) averages.old energy.old }
    ensures holds { Holds query.now.bands (query.now.count / 4) averages.new energy.new }
    ensures value { lent_bands query.now.bands (query.now.count / 4) averages.new energy.new ≡ reduced query.now.bands (bands_in query.now) }
{
    reduce_with_energies(averages, energy, query.values, query.bands, query.count);
}

// How many averaged places the peaks are apart.
fn peak_separation(hop: f64) -> usize
    ensures { result ≡ separation hop }
{
    1usize.max(count(APART_MS / (hop * 4.0)))
}

// The candidates around the peaks, the best first. Scores are worked out in `scores`.
#[tactic(auto, unfolding(matcher_spec::specs::Search::candidates_at, matcher_spec::specs::Candidates::sort_into))]
fn candidates_around(compared: &Comparison<'_>, picked: &Picked, scores: &mut [f64]) -> MatchResult
    requires in_bounds { All (λ peak. peak ≤ frames_most) picked.now.items }
    requires room { compared.now.reference.frames ≤ length scores.old }
    ensures { result.items ≡ sorted (candidates_at compared.now.reference (bands_in compared.now.bands.reference) (bands_in compared.now.bands.query) compared.now.start picked.now.items) }
{
    let last = compared.reference.frames - compared.bands.query.count;
    let mut found = nothing_found();
    for peak in picked.iter() {
        let centre = *peak * 4;
        let low = centre.saturating_sub(4);
        let high = last.min(centre + 4);
        if low <= high {
            insert_by_score(&mut found, best_candidate(compared, low, high, scores));
        }
    }
    found
}
