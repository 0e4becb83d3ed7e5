// Widening, the finite tests, and what comparisons alone decide.
ghost use Rattle.std.specs.Prelude.{◌≡◌};
ghost use Rattle.std.specs.Float.Ieee.Scale.{finite};
ghost use Rattle.numbers_spec.specs.Arithmetic.{absolute, at_least, at_most, real};

use std::num::{f32_to_f64_with_nan, nearest_usize_to_f64};

// x in the wider format, which holds every f32. A NaN gives a NaN.
pub fn widen(x: f32) -> f64
    ensures { result ≡ x }
{
    f32_to_f64_with_nan(x)
}

// Whether x is neither a NaN nor an infinity.
// Kept: std's `is_finite`, by a difference, made `round` take 5.2 ns for 4.2.
pub fn is_finite(x: f64) -> bool
    ensures { result ≡ finite x }
{
    x > f64::NEG_INFINITY && x < f64::INFINITY
}

// Whether the f32 x is neither a NaN nor an infinity.
#[tactic(auto, using(crate::proofs::float::Same::finite_is))]
pub fn is_finite_f32(x: f32) -> bool
    ensures { result ≡ finite x }
{
    x.is_finite()
}

// The f64 nearest to n.
pub fn real(n: usize) -> f64
    ensures { result ≡ real n }
{
    nearest_usize_to_f64(n)
}

// |x|, to be compared: a zero keeps its sign, which std's `abs` takes.
pub fn abs(x: f64) -> f64
    ensures { result ≡ absolute x }
{
    if x < 0.0 { -x } else { x }
}

// The larger of the two, and the floor where x is a NaN.
// Kept: of two zeros std's `max` and `min` give either, and these say which.
pub fn at_least(floor: f64, x: f64) -> f64
    ensures { result ≡ at_least floor x }
{
    if x > floor { x } else { floor }
}

// The smaller of the two, and the cap where x is a NaN.
pub fn at_most(cap: f64, x: f64) -> f64
    ensures { result ≡ at_most cap x }
{
    if x < cap { x } else { cap }
}
