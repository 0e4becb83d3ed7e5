// Which timelines and values are accepted.
ghost use Rattle.std.specs.Prelude.{ℕ, suc, ◌-◌, ◌<◌, length, ◌≡◌};
ghost use Rattle.numbers_spec.specs.Rows.{all_to};
ghost use Rattle.matcher_spec.specs.Timeline.{accepts, within_tolerance, on_time, regular, valid_value, valid_values};

use numbers::float::{abs, is_finite, real};

// Whether a is off b by less than hop * 0.05.
fn is_within_tolerance(hop: f64, a: f64, b: f64) -> bool
    ensures { result ≡ within_tolerance hop a b }
{
    abs(a - b) < hop * 0.05
}

// Whether the step to frame i and its time are as the hop asks.
#[tactic(auto, unfolding(matcher_spec::specs::Timeline::on_time))]
fn is_on_time(times: &[f64], hop: f64, i: usize) -> bool
    requires after_first { 0 < i }
    requires within { i < length times.now }
    ensures { result ≡ on_time hop times.now i }
{
    let step = times[i] - times[i - 1];
    let expected = times[0] + real(i) * hop;
    is_finite(step)
        && is_within_tolerance(hop, step, hop)
        && is_within_tolerance(hop, times[i], expected)
}

// Whether each frame but the first is on time.
fn are_on_time(times: &[f64], hop: f64) -> bool
    ensures { result ≡ all_to (λ (i : ℕ). on_time hop times.now (suc i)) (length times.now - 1) }
{
    (1..times.len()).all(|i| is_on_time(times, hop, i))
}

// Whether the timeline is regular: two frames or more, each on time.
#[tactic(auto, unfolding(matcher_spec::specs::Timeline::regular))]
pub fn is_regular(times: &[f64], hop: f64) -> bool
    ensures { result ≡ regular hop times.now }
{
    times.len() > 1 && is_finite(hop) && hop > 0.0 && is_finite(times[0]) && are_on_time(times, hop)
}

// Whether a window's timeline is regular and has the reference's number of bands.
// Kept: two things of the reference and two of the window, which the matcher and the engine have in
// structs of different kinds.
#[tactic(auto, unfolding(matcher_spec::specs::Timeline::accepts))]
pub fn accepts_timeline(bands: usize, hop: f64, window_bands: usize, times: &[f64]) -> bool
    ensures { result ≡ accepts bands hop window_bands times.now }
{
    window_bands == bands && is_regular(times, hop)
}

// Whether v is finite and not below zero.
fn is_valid(v: f32) -> bool
    ensures { result ≡ valid_value v }
{
    (v >= 0.0) & (v < f32::INFINITY)
}

// Whether all values are finite and not below zero. It goes on after one that is not, so that the
// pass has no branch and becomes vector code.
// Kept: a fold, since by `all_by` a value took 0.74 ns for 0.70.
pub fn are_valid(values: &[f32]) -> bool
    ensures { result ≡ valid_values values.now }
{
    values.iter().fold(true, |all, v| all & is_valid(*v))
}
