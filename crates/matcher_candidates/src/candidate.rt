// The candidate of a range of places, which a whole and a local search share.
ghost use Rattle.std.specs.Prelude.{◌+◌, ◌-◌, ◌<◌, ◌≤◌, length, ◌≡◌};
ghost use Rattle.matcher_spec.specs.Energy.{whole_energies};
ghost use Rattle.matcher_spec.specs.Lent.{bands_in};
ghost use Rattle.matcher_spec.specs.Limits.{bands_most, frames_most};
ghost use Rattle.matcher_spec.specs.Scores.{correlations};
ghost use Rattle.matcher_spec.specs.Search.{candidate_in, candidate_of, fraction, vertex};

use crate::comparison::Comparison;
use matcher_bands::energy::whole_energies;
use matcher_picks::peaks::first_maximum;
use matcher_scores::scores::{Scoring, correlations, score_part};
use matcher_spec::constants::RECENT_MS;
use matcher_spec::lent::Paired;
use matcher_spec::types::Candidate;
use numbers::float::real;
use numbers::whole::count;

// The best of the places from `low` to `high`. Their scores are worked out at the front of `scores`.
// Kept: two ends and `low ≤ high`, which a range of places and one of frames share by shape alone.
#[tactic(auto, unfolding(matcher_spec::specs::Search::candidate_in))]
pub fn best_candidate(
    compared: &Comparison<'_>,
    low: usize,
    high: usize,
    scores: &mut [f64],
) -> Candidate
    requires some { low ≤ high }
    requires within { high + compared.now.bands.query.count ≤ compared.now.reference.frames }
    requires room { compared.now.reference.frames ≤ length scores.old }
    ensures { result ≡ candidate_in compared.now.reference (bands_in compared.now.bands.reference) (bands_in compared.now.bands.query) compared.now.start low high }
{
    let places = &mut scores[..high - low + 1];
    score_places(places, &compared.bands, low);
    candidate_of(compared, places, low)
}

// Fills `scores` with those of the places from `low` on.
pub fn score_places(scores: &mut [f64], paired: &Paired<'_>, low: usize)
    requires few { paired.now.reference.bands ≤ bands_most }
    requires short { paired.now.reference.count ≤ frames_most }
    requires within { low + length scores.old + paired.now.query.count ≤ paired.now.reference.count + 1 }
    ensures { scores.new ≡ correlations paired.now.reference.bands (bands_in paired.now.reference) paired.now.query.count paired.now.query.values.now (whole_energies paired.now.query.bands (bands_in paired.now.query)) low (length scores.old) }
{
    let query = paired.query;
    let whole = whole_energies(query.energy, query.bands, query.count);
    let scoring = Scoring {
        reference: paired.reference,
        query: query.values,
        whole: &whole[..query.bands],
        count: query.count,
    };
    correlations(scores, &scoring, low);
}

// The candidate of the places from `low` on that score so.
fn candidate_of(compared: &Comparison<'_>, scores: &[f64], low: usize) -> Candidate
    requires some { 0 < length scores.now }
    requires within { low + length scores.now + compared.now.bands.query.count ≤ compared.now.reference.frames + 1 }
    ensures { result ≡ candidate_of compared.now.reference (bands_in compared.now.bands.reference) (bands_in compared.now.bands.query) compared.now.start low scores.now }
{
    let n = compared.bands.query.count;
    let best = first_maximum(scores);
    let index = low + best.at;
    let place = real(index) + fraction_at(scores, best.at);
    let half = n / 2;
    let recent = n.saturating_sub(count(RECENT_MS / compared.reference.hop_ms));
    Candidate {
        offset_ms: compared.reference.start_ms + place * compared.reference.hop_ms - compared.start,
        score: best.score,
        first_half_score: score_part(&compared.bands, index, 0, half),
        second_half_score: score_part(&compared.bands, index, half, n),
        recent_score: score_part(&compared.bands, index, recent, n),
    }
}

// How far the best place lies beside its frame.
#[tactic(auto, unfolding(matcher_spec::specs::Search::fraction))]
fn fraction_at(scores: &[f64], peak: usize) -> f64
    requires { peak < length scores.now }
    ensures { result ≡ fraction scores.now peak }
{
    if peak > 0 && peak + 1 < scores.len() {
        vertex_of(scores[peak - 1], scores[peak], scores[peak + 1])
    } else {
        0.0
    }
}

// The top of the parabola through three scores.
fn vertex_of(left: f64, centre: f64, right: f64) -> f64
    ensures { result ≡ vertex left centre right }
{
    let curvature = left - 2.0 * centre + right;
    if curvature < -0.000001 {
        (0.5 * (left - right) / curvature).clamp(-0.5, 0.5)
    } else {
        0.0
    }
}
