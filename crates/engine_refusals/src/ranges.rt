// Ranges of numbers, and scans of lists for them.
ghost use Rattle.std.specs.Prelude.{◌≡◌};
ghost use Rattle.numbers_spec.specs.Rows.{every};
ghost use Rattle.engine_spec.specs.Refusals.{hop_in_range, near, near_or_not_finite, track_number, valid_energy, within};

use matcher_spec::limits::{FARTHEST_MS, HOP_LEAST, HOP_MOST, TRACK_MOST};
use numbers::float::is_finite;

// Whether x lies from -limit to limit.
pub fn is_within(limit: f64, x: f64) -> bool
    ensures { result ≡ within limit x }
{
    -limit <= x && x <= limit
}

// A time that is finite and within ±10^12.
pub fn is_near(t: f64) -> bool
    ensures { result ≡ near t }
{
    is_within(FARTHEST_MS, t)
}

// A number of a track or an estimate, within ±10^13.
pub fn is_track_number(x: f64) -> bool
    ensures { result ≡ track_number x }
{
    is_within(TRACK_MOST, x)
}

// A reference time that is not finite is no refusal: it makes the reference one that is rejected.
fn is_near_or_not_finite(t: f64) -> bool
    ensures { result ≡ near_or_not_finite t }
{
    !is_finite(t) || is_near(t)
}

// An energy is a number below plus infinity; minus infinity passes.
fn is_valid_energy(x: f64) -> bool
    ensures { result ≡ valid_energy x }
{
    x < f64::INFINITY
}

// From 1 to 1,000; a NaN is not.
pub fn is_hop(hop: f64) -> bool
    ensures { result ≡ hop_in_range hop }
{
    HOP_LEAST <= hop && hop <= HOP_MOST
}

// Whether every time is near.
// Kept, here and in the two below: with `all` at the one call, each return behind it needs the law of
// `all` by hand, five answers for three.
pub fn are_near(times: &[f64]) -> bool
    ensures { result ≡ every near times.now }
{
    times.iter().all(|t| is_near(*t))
}

// Whether every time is near or not finite.
pub fn are_near_or_not_finite(times: &[f64]) -> bool
    ensures { result ≡ every near_or_not_finite times.now }
{
    times.iter().all(|t| is_near_or_not_finite(*t))
}

// Whether every number is a valid energy.
pub fn are_valid_energies(energies: &[f64]) -> bool
    ensures { result ≡ every valid_energy energies.now }
{
    energies.iter().all(|x| is_valid_energy(*x))
}
