// The scores of a query's places on a reference: of a whole query in blocks of places, of a part of
// it one place at a time. Each operation is in the Rust's order.
ghost use Rattle.std.specs.Prelude.{ℕ, ◌+◌, ◌*◌, ◌<◌, ◌≤◌, get_or, length, ◌≡◌};
ghost use Rattle.std.specs.Float.{nan};
ghost use Rattle.numbers_spec.specs.Rows.{sum_to, tabulate};
ghost use Rattle.matcher_spec.specs.Lent.{bands_in};
ghost use Rattle.matcher_spec.specs.Scores.{correlations, part_term, score_part, term_at, variance_floor};
ghost use Rattle.matcher_scores.specs.Blocks.{term_of};
ghost use Rattle.numbers_spec.specs.Arithmetic.{◌⊕◌, ◌⊗◌};

use crate::bands::{Band, Pair, nth_band};
use crate::blocks::{BLOCK, Rows};
use matcher_dots::dot::dot_product;
use matcher_spec::lent::{Bands, Paired};
use numbers::float::{at_least, real, widen};
use numbers::root::root;

// What the scores of places are made of: a reference, and as many bands of a query, with `count`
// values each and their whole energies. Both slices of the query may be longer.
#[derive(Clone, Copy)]
pub struct Scoring<'a> {
    pub reference: Bands<'a>,
    pub query: &'a [f32],
    pub whole: &'a [f64],
    pub count: usize,
    ghost query_room: { reference.bands * count ≤ length query.now },
    ghost whole_room: { reference.bands ≤ length whole.now },
}

// The scores of as many places as `scores` has, from `low` on.
pub fn correlations(scores: &mut [f64], scoring: &Scoring<'_>, low: usize)
    requires { low + length scores.old + scoring.now.count ≤ scoring.now.reference.count + 1 }
    ensures { scores.new ≡ correlations scoring.now.reference.bands (bands_in scoring.now.reference) scoring.now.count scoring.now.query.now scoring.now.whole.now low (length scores.old) }
{
    sum_bands(scores, scoring, low);
    scale(scores, 1.0 / real(scoring.reference.bands));
}

// The sum over the bands at each place. The working rows of a block are made once and not for each
// band.
fn sum_bands(scores: &mut [f64], scoring: &Scoring<'_>, low: usize)
    requires { low + length scores.old + scoring.now.count ≤ scoring.now.reference.count + 1 }
    ensures { scores.new ≡ tabulate (λ (i : ℕ). sum_to (term_at (bands_in scoring.now.reference) scoring.now.count scoring.now.query.now scoring.now.whole.now (low + i)) scoring.now.reference.bands) (length scores.old) }
{
    let mut rows = Rows::new();
    scores.fill(0.0);
    for b in 0..scoring.reference.bands {
        let pair = nth_pair(scoring, b);
        add_band(scores, &pair, low, &mut rows);
    }
}

// Band b of the reference and of the query.
fn nth_pair<'a>(scoring: &Scoring<'a>, b: usize) -> Pair<'a>
    requires { b < scoring.now.reference.bands }
    ensures term { (start : ℕ) → term_of result start ≡ term_at (bands_in scoring.now.reference) scoring.now.count scoring.now.query.now scoring.now.whole.now start b }
    ensures frames { length result.reference.now ≡ scoring.now.reference.count }
    ensures count { length result.query.now ≡ scoring.now.count }
{
    let band = nth_band(&scoring.reference, b);
    let count = scoring.count;
    let at = b * count;
    let floor = variance_floor(count);
    Pair {
        reference: band.values,
        energy: band.energy,
        query: &scoring.query[at..at + count],
        floor,
        whole: at_least(floor, scoring.whole[b]),
    }
}

// Adds what a band adds to each score, from the place `low` on, block after block.
#[tactic(auto, using(crate::proofs::BlockLaws::fillings))]
fn add_band(scores: &mut [f64], pair: &Pair<'_>, low: usize, rows: &mut Rows)
    requires { low + length scores.old + length pair.now.query.now ≤ length pair.now.reference.now + 1 }
    ensures { scores.new ≡ tabulate (λ (i : ℕ). get_or scores.old i nan ⊕ term_of pair.now (low + i)) (length scores.old) }
{
    for i in (0..scores.len()).step_by(BLOCK) {
        let end = (i + BLOCK).min(scores.len());
        rows.add_block(&mut scores[i..end], pair, low + i);
    }
}

// Every score times `by`.
#[tactic(auto, using(crate::proofs::BlockLaws::fillings))]
fn scale(scores: &mut [f64], by: f64)
    ensures { scores.new ≡ tabulate (λ (i : ℕ). get_or scores.old i nan ⊗ by) (length scores.old) }
{
    for i in 0..scores.len() {
        scores[i] = scores[i] * by;
    }
}

// The score of the query's part from `low` up to `high`, where the query stands at the place
// `start`.
#[tactic(auto, unfolding(matcher_spec::specs::Scores::score_part, numbers_spec::specs::Rows::sum_to))]
pub fn score_part(paired: &Paired<'_>, start: usize, low: usize, high: usize) -> f64
    requires low_le_high_1 { low ≤ high }
    requires low_le_high_2 { high ≤ paired.now.query.count }
    requires low_le_high_3 { start + paired.now.query.count ≤ paired.now.reference.count }
    ensures { result ≡ score_part paired.now.reference.bands (bands_in paired.now.reference) (bands_in paired.now.query) start low high }
{
    let mut score = 0.0f64;
    for b in 0..paired.reference.bands {
        score = score
            + part_term(
                &nth_band(&paired.reference, b),
                &nth_band(&paired.query, b),
                start,
                low,
                high,
            );
    }
    score / real(paired.reference.bands)
}

// What a band adds to the score of the query's part from `low` up to `high`.
#[tactic(auto, unfolding(matcher_spec::specs::Scores::part_term))]
fn part_term(reference: &Band<'_>, query: &Band<'_>, start: usize, low: usize, high: usize) -> f64
    requires low_le_high { low ≤ high }
    requires high_in_bounds_1 { start + high ≤ length reference.now.values.now }
    requires high_in_bounds_2 { high ≤ length query.now.values.now }
    ensures { result ≡ part_term reference.now.values.now reference.now.energy.now query.now.values.now query.now.energy.now start low high }
{
    let floor = variance_floor(high - low);
    let from = start + low;
    let to = start + high;
    let dot = widen(dot_product(&reference.values[from..to], &query.values[low..high]));
    let reference_energy = at_least(floor, reference.energy[to] - reference.energy[from]);
    let query_part = at_least(floor, query.energy[high] - query.energy[low]);
    dot / root(reference_energy * query_part)
}

// Energies of n frames below this count as this.
#[tactic(auto, unfolding(matcher_spec::specs::Scores::variance_floor))]
fn variance_floor(n: usize) -> f64
    ensures { result ≡ variance_floor n }
{
    real(n) * 0.001
}
