// The matcher, for Rust to call. Sizes that do not fit are answered by `UNFIT`, and then nothing is
// written.
ghost use Rattle.std.specs.Prelude.{IsTrue, true, ◌+◌, ◌*◌, ◌/◌, ◌<◌, ◌≤◌, drop, length, ◌++◌, ◌≡◌};
ghost use Rattle.compare_exports.specs.MatcherCalls.{candidate_at, candidates_at, counted, fill_answer, filled_buffers, fits_bands, fits_fill_lengths, fits_limits, fits_local, fits_whole, fits_window, found_in, found_near, margin_answer, margin_written, numbers_of, reference_of, written};
ghost use Rattle.matcher_spec.specs.Candidates.{eight_of};
ghost use Rattle.matcher_spec.specs.Centring.{wide_hop};
ghost use Rattle.matcher_spec.specs.Energy.{Holds};
ghost use Rattle.matcher_spec.specs.Index.{lent};
ghost use Rattle.matcher_spec.specs.Search.{InRange};
ghost use Rattle.matcher_spec.specs.Features.{features};
ghost use Rattle.matcher_spec.specs.Limits.{bands_most, candidates_most, frames_most};

use matcher::index::fill_index;
use matcher::lent::{lent_fine, lent_matcher};
use matcher::local::local_search;
use matcher::whole::whole_search;
use matcher_picks::candidates::{eight_of, margin, numbers_of};
use matcher_spec::lent::{Features, Index};
use matcher_spec::limits::{
    BANDS_MOST, CANDIDATES_MOST, FRAMES_MOST, HOP_LEAST, HOP_MOST, WINDOW_MOST,
};
use matcher_spec::types::{Candidate, MatchResult, Reference};
use std::array;

// The answer where a slice is too short or a number is out of its range.
const UNFIT: usize = 255;

// How many numbers the candidates of a result have.
const NUMBERS: usize = 40;

// Whether a reference is within document 01's limits.
// Kept: three numbers, since of a reference that an index is filled with there is no `Reference`.
#[tactic(auto, unfolding(crate::specs::MatcherCalls::fits_limits))]
fn fits_limits(bands: usize, frames: usize, hop: f64) -> bool
    ensures value { result ≡ fits_limits bands frames hop }
    ensures within { IsTrue result → (0 < bands) × (bands ≤ bands_most) × (frames ≤ frames_most) × (wide_hop hop ≡ true) }
{
    bands > 0 && bands <= BANDS_MOST && frames <= FRAMES_MOST && hop >= HOP_LEAST && hop <= HOP_MOST
}

// Whether slices of these lengths hold n values a band, and their energies.
// Kept: two numbers below a bound, so that no product overflows; clauses like these in engine_refusals and
// matcher_bands are alike by text alone.
#[tactic(auto, using(crate::proofs::FitLaws::few), unfolding(crate::specs::MatcherCalls::fits_bands))]
fn fits_bands(bands: usize, n: usize, values: usize, energy: usize) -> bool
    requires few { bands ≤ bands_most }
    requires short { n ≤ frames_most }
    ensures value { result ≡ fits_bands bands n values energy }
    ensures room { IsTrue result → (bands * n ≤ values) × (bands * (n + 1) ≤ energy) }
{
    bands * n <= values && bands * (n + 1) <= energy
}

// Whether the lengths of a window's slices and of the working buffers are enough.
// Kept: the lengths alone, here and in `fits_local` and `fits_whole`, since the working slices are lent `&mut`.
#[tactic(auto, using(crate::proofs::FitLaws::few), unfolding(crate::specs::MatcherCalls::fits_window))]
fn fits_window(frames: usize, window: &Features<'_>, work32: usize, work64: usize) -> bool
    requires { frames ≤ frames_most }
    ensures value { result ≡ fits_window frames window.now.bands (length window.now.times) (length window.now.values) work32 work64 }
    ensures whole { IsTrue result → length window.now.values ≡ window.now.bands * length window.now.times }
    ensures room { IsTrue result → (2 * (window.now.bands * length window.now.times) ≤ work32) × (3 * (window.now.bands * (length window.now.times + 1)) + frames ≤ work64) }
{
    let bands = window.bands;
    let times = window.times.len();
    bands <= BANDS_MOST
        && times <= WINDOW_MOST
        && window.values.len() == bands * times
        && 2 * (bands * times) <= work32
        && 3 * (bands * (times + 1)) + frames <= work64
}

// Whether the index can be filled.
#[tactic(auto, unfolding(crate::specs::MatcherCalls::fits_fill_lengths))]
fn fits_fill(
    hop: f64,
    reference: &Features<'_>,
    fine: usize,
    coarse: usize,
    fine_energy: usize,
    coarse_energy: usize,
) -> bool
    ensures value { result ≡ fits_fill_lengths hop reference.now.bands (length reference.now.times) (length reference.now.values) fine coarse fine_energy coarse_energy }
    ensures wide { IsTrue result → wide_hop hop ≡ true }
    ensures whole { IsTrue result → length reference.now.values ≡ reference.now.bands * length reference.now.times }
    ensures fine_room { IsTrue result → (reference.now.bands * length reference.now.times ≤ fine) × (reference.now.bands * (length reference.now.times + 1) ≤ fine_energy) }
    ensures coarse_room { IsTrue result → (reference.now.bands * (length reference.now.times / 4) ≤ coarse) × (reference.now.bands * (length reference.now.times / 4 + 1) ≤ coarse_energy) }
{
    let bands = reference.bands;
    let times = reference.times.len();
    fits_limits(bands, times, hop)
        && reference.values.len() == bands * times
        && fits_bands(bands, times, fine, fine_energy)
        && fits_bands(bands, times / 4, coarse, coarse_energy)
}

// Fills the index and answers 1, or answers 0 where the reference is rejected.
// Kept: flat slices and numbers in the three calls, which the C interface lends so.
#[unsafe(no_mangle)]
#[tactic(auto, unfolding(crate::specs::MatcherCalls::fill_answer, crate::specs::MatcherCalls::filled_buffers))]
pub extern "C" fn matcher_fill_index(
    fine: &mut [f32],
    coarse: &mut [f32],
    fine_energy: &mut [f64],
    coarse_energy: &mut [f64],
    bands: usize,
    hop: f64,
    times: &[f64],
    values: &[f32],
) -> usize
    ensures value { result ≡ fill_answer hop bands times.now values.now (lent fine.old coarse.old fine_energy.old coarse_energy.old) }
    ensures fine_after { fine.new ≡ (filled_buffers hop bands times.now values.now (lent fine.old coarse.old fine_energy.old coarse_energy.old)).fine }
    ensures coarse_after { coarse.new ≡ (filled_buffers hop bands times.now values.now (lent fine.old coarse.old fine_energy.old coarse_energy.old)).coarse }
    ensures fine_energy_after { fine_energy.new ≡ (filled_buffers hop bands times.now values.now (lent fine.old coarse.old fine_energy.old coarse_energy.old)).fine_energy }
    ensures coarse_energy_after { coarse_energy.new ≡ (filled_buffers hop bands times.now values.now (lent fine.old coarse.old fine_energy.old coarse_energy.old)).coarse_energy }
{
    let reference = Features {
        bands,
        times,
        values,
    };
    if !fits_fill(
        hop,
        &reference,
        fine.len(),
        coarse.len(),
        fine_energy.len(),
        coarse_energy.len(),
    ) {
        return UNFIT;
    }
    if fill_index(fine, coarse, fine_energy, coarse_energy, hop, &reference) {
        return 1;
    }
    0
}

// Writes the numbers of eight candidates, five each: zeros behind the last found.
// Kept: a slice: both callers test its length with the others', and each would have to unwrap an array.
fn write_candidates(out: &mut [f64], found: &MatchResult)
    requires { 40 ≤ length out.old }
    ensures { out.new ≡ numbers_of (eight_of found.now.items) ++ drop 40 out.old }
{
    let eight = eight_of(found);
    for i in 0..CANDIDATES_MOST {
        let at = i * 5;
        out[at..at + 5].copy_from_slice(&numbers_of(eight[i]));
    }
}

// Whether a local search fits: it reads the fine half of the index.
#[tactic(auto, unfolding(crate::specs::MatcherCalls::fits_local_lengths))]
fn fits_local(
    reference: Reference,
    fine: &[f32],
    energy: &[f64],
    window: &Features<'_>,
    work32: usize,
    work64: usize,
    out: usize,
) -> bool
    ensures value { result ≡ fits_local reference fine.now energy.now window.now work32 work64 out }
    ensures in_range { IsTrue result → InRange reference }
    ensures holds { IsTrue result → Holds reference.bands reference.frames fine.now energy.now }
    ensures whole { IsTrue result → length window.now.values ≡ window.now.bands * length window.now.times }
    ensures room { IsTrue result → (2 * (window.now.bands * length window.now.times) ≤ work32) × (3 * (window.now.bands * (length window.now.times + 1)) + reference.frames ≤ work64) × (40 ≤ out) }
{
    fits_limits(reference.bands, reference.frames, reference.hop_ms)
        && fits_window(reference.frames, window, work32, work64)
        && fits_bands(reference.bands, reference.frames, fine.len(), energy.len())
        && NUMBERS <= out
}

// Whether a whole search fits.
#[tactic(auto, unfolding(crate::specs::MatcherCalls::fits_whole))]
fn fits_whole(
    reference: Reference,
    index: &Index<'_>,
    window: &Features<'_>,
    work32: usize,
    work64: usize,
    out: usize,
) -> bool
    ensures value { result ≡ fits_whole reference index.now window.now work32 work64 out }
    ensures in_range { IsTrue result → InRange reference }
    ensures holds { IsTrue result → Holds reference.bands reference.frames index.now.fine index.now.fine_energy }
    ensures holds_2 { IsTrue result → Holds reference.bands (reference.frames / 4) index.now.coarse index.now.coarse_energy }
    ensures whole { IsTrue result → length window.now.values ≡ window.now.bands * length window.now.times }
    ensures room { IsTrue result → (2 * (window.now.bands * length window.now.times) ≤ work32) × (3 * (window.now.bands * (length window.now.times + 1)) + reference.frames ≤ work64) × (40 ≤ out) }
{
    fits_local(
        reference,
        index.fine,
        index.fine_energy,
        window,
        work32,
        work64,
        out,
    ) && fits_bands(
        reference.bands,
        reference.frames / 4,
        index.coarse.len(),
        index.coarse_energy.len(),
    )
}

// The candidates of the whole reference: their number is the answer.
#[unsafe(no_mangle)]
pub extern "C" fn matcher_whole_search(
    fine: &[f32],
    coarse: &[f32],
    fine_energy: &[f64],
    coarse_energy: &[f64],
    reference_bands: usize,
    frames: usize,
    start: f64,
    hop: f64,
    bands: usize,
    times: &[f64],
    values: &[f32],
    work32: &mut [f32],
    work64: &mut [f64],
    out: &mut [f64],
) -> usize
    ensures value { result ≡ counted (fits_whole (reference_of reference_bands frames start hop) (lent fine.now coarse.now fine_energy.now coarse_energy.now) (features bands times.now values.now) (length work32.old) (length work64.old) (length out.old)) (found_in (reference_of reference_bands frames start hop) (lent fine.now coarse.now fine_energy.now coarse_energy.now) (features bands times.now values.now)) }
    ensures out_after { out.new ≡ written (fits_whole (reference_of reference_bands frames start hop) (lent fine.now coarse.now fine_energy.now coarse_energy.now) (features bands times.now values.now) (length work32.old) (length work64.old) (length out.old)) (found_in (reference_of reference_bands frames start hop) (lent fine.now coarse.now fine_energy.now coarse_energy.now) (features bands times.now values.now)) out.old }
{
    let reference = Reference {
        bands: reference_bands,
        frames,
        start_ms: start,
        hop_ms: hop,
    };
    let index = Index {
        fine,
        coarse,
        fine_energy,
        coarse_energy,
    };
    let window = Features {
        bands,
        times,
        values,
    };
    if !fits_whole(
        reference,
        &index,
        &window,
        work32.len(),
        work64.len(),
        out.len(),
    ) {
        return UNFIT;
    }
    let matcher = lent_matcher(reference, &index);
    let found = whole_search(&matcher, &window, work32, work64);
    write_candidates(out, &found);
    found.len()
}

// The best candidate of an offset range: 1 or 0 is the answer.
#[unsafe(no_mangle)]
pub extern "C" fn matcher_local_search(
    fine: &[f32],
    energy: &[f64],
    reference_bands: usize,
    frames: usize,
    start: f64,
    hop: f64,
    bands: usize,
    times: &[f64],
    values: &[f32],
    lower: f64,
    upper: f64,
    work32: &mut [f32],
    work64: &mut [f64],
    out: &mut [f64],
) -> usize
    ensures value { result ≡ counted (fits_local (reference_of reference_bands frames start hop) fine.now energy.now (features bands times.now values.now) (length work32.old) (length work64.old) (length out.old)) (found_near (reference_of reference_bands frames start hop) fine.now energy.now (features bands times.now values.now) lower upper) }
    ensures out_after { out.new ≡ written (fits_local (reference_of reference_bands frames start hop) fine.now energy.now (features bands times.now values.now) (length work32.old) (length work64.old) (length out.old)) (found_near (reference_of reference_bands frames start hop) fine.now energy.now (features bands times.now values.now) lower upper) out.old }
{
    let reference = Reference {
        bands: reference_bands,
        frames,
        start_ms: start,
        hop_ms: hop,
    };
    let window = Features {
        bands,
        times,
        values,
    };
    if !fits_local(
        reference,
        fine,
        energy,
        &window,
        work32.len(),
        work64.len(),
        out.len(),
    ) {
        return UNFIT;
    }
    let half = lent_fine(reference, fine, energy);
    let found = local_search(&half, &window, lower, upper, work32, work64);
    write_candidates(out, &found);
    found.len()
}

// The candidate at a place among eight.
// Kept: a clause for the place. With this body in the closure below the search did not prove
// `candidates_at`.
#[tactic(auto, unfolding(crate::specs::MatcherCalls::candidate_at))]
fn candidate_at(numbers: &[f64; NUMBERS], i: usize) -> Candidate
    requires { i < candidates_most }
    ensures { result ≡ candidate_at numbers.now (i * 5) }
{
    let at = i * 5;
    Candidate {
        offset_ms: numbers[at],
        score: numbers[at + 1],
        first_half_score: numbers[at + 2],
        second_half_score: numbers[at + 3],
        recent_score: numbers[at + 4],
    }
}

// The eight candidates whose numbers a search has written.
#[tactic(auto, unfolding(crate::specs::MatcherCalls::candidates_at))]
fn candidates_at(numbers: &[f64; NUMBERS]) -> [Candidate; CANDIDATES_MOST]
    ensures { result ≡ candidates_at numbers.now }
{
    array::from_fn(|i| candidate_at(numbers, i))
}

// Writes the margin of the first `count` candidates, whose numbers stand as a search writes them, and
// answers 1.
#[unsafe(no_mangle)]
#[tactic(auto, unfolding(crate::specs::MatcherCalls::fits_margin))]
pub extern "C" fn matcher_margin(numbers: &[f64], count: usize, out: &mut [f64]) -> usize
    ensures value { result ≡ margin_answer numbers.now count out.old }
    ensures out_after { out.new ≡ margin_written numbers.now count out.old }
{
    let Some(numbers) = numbers.first_chunk() else {
        return UNFIT;
    };
    if count > CANDIDATES_MOST || out.is_empty() {
        return UNFIT;
    }
    out[0] = margin(&candidates_at(numbers)[..count]);
    1
}
