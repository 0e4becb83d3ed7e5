// Rounding to whole, floor, ceiling and counts. Floor and ceiling, which a search asks for but a few
// times, are std's.
ghost use Rattle.std.specs.Prelude.{◌≡◌, ◌^◌, ◌<◌, ◌≤◌};
ghost use Rattle.std.specs.Float.{binary64};
ghost use Rattle.std.specs.Float.Ieee.{round};
ghost use Rattle.numbers_spec.specs.Arithmetic.{count_of};
ghost use Rattle.numbers_spec.specs.Whole.{half_up, whole_above, whole_below, whole_nearest};

use crate::float::is_finite;
use crate::parts::{WHOLE, split};
use std::num::saturating_f64_to_usize;

// x to the nearest whole number, a half away from zero: by a shift of the significand, since an addition
// of 0.5 would be wrong at 0.49999999999999994.
// Kept: std's `round`, by sums, took 5.8 ns for 4.9, 17.6 for 10.2 in a chain, and E in one 142 for 132.
pub fn round(x: f64) -> f64
    ensures { result ≡ whole_nearest x }
{
    if is_finite(x) {
        let p = split(x);
        if p.exp < WHOLE {
            return signed(p.minus, half_up(p.sig, WHOLE - p.exp));
        }
    }
    x
}

// ±mag as a float. It is exact, and keeps the sign of a zero.
fn signed(minus: bool, mag: u64) -> f64
    requires { mag ≤ 2 ^ 53 }
    ensures { result ≡ round binary64 minus mag 1 }
{
    if minus { -(mag as f64) } else { mag as f64 }
}

// sig / 2 ^ gap to the nearest whole number, a half going up.
fn half_up(sig: u64, gap: u64) -> u64
    requires sig_lt { sig < 2 ^ 53 }
    requires gap_some { 0 < gap }
    ensures { result ≡ half_up sig (2 ^ gap) }
{
    if gap > 63 {
        0
    } else {
        (sig + (1u64 << (gap - 1))) >> gap
    }
}

// The largest whole number that is not above x.
#[tactic(auto, using(crate::proofs::whole::Same::floor_is))]
pub fn floor(x: f64) -> f64
    ensures { result ≡ whole_below x }
{
    x.floor()
}

// The smallest whole number that is not below x.
#[tactic(auto, using(crate::proofs::whole::Same::ceil_is))]
pub fn ceil(x: f64) -> f64
    ensures { result ≡ whole_above x }
{
    x.ceil()
}

// x without its fraction, brought to the nearest end of the range where it lies outside; 0 of a NaN.
pub fn count(x: f64) -> usize
    ensures { result ≡ count_of x }
{
    saturating_f64_to_usize(x)
}
