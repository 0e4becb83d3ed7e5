// E, which stands for `exp`, and 10^y: document 01's steps, each operation rounded once.
ghost use Rattle.std.specs.Prelude.{◌≡◌};
ghost use Rattle.numbers_spec.specs.Arithmetic.{one};
ghost use Rattle.numbers_spec.specs.Exponential.{exp_of, exp_series, ten_to, two_to};

use crate::constants::{HI, LN_10, LO};
use crate::parts::LEADING;
use crate::whole::round;
use std::num::truncating_f64_to_u64;

// Beyond it, on either side, E is 0 or plus infinity.
const LIMIT: f64 = 690.0;

// 1 / ln 2.
const LOG2_E: f64 = 1.4426950408889634;

// E(x): 0 below -690, plus infinity above 690.
pub fn exp(x: f64) -> f64
    ensures { result ≡ exp_of x }
{
    if x < -LIMIT {
        return 0.0;
    }
    if x > LIMIT {
        return f64::INFINITY;
    }
    let k = round(x * LOG2_E);
    let r = x - k * HI - k * LO;
    exp_series(r) * two_to(k)
}

// 10^y.
pub fn ten_to(y: f64) -> f64
    ensures { result ≡ ten_to y }
{
    exp(y * LN_10)
}

// p = 1 + (r * p) / n, from p = 1, for n from 13 down to 1.
fn exp_series(r: f64) -> f64
    ensures { result ≡ exp_series 13 r one }
{
    let mut p = 1.0;
    for n in (1..=13u64).rev() {
        p = 1.0 + r * p / (n as f64);
    }
    p
}

// 2 ^ k for a whole k from -1022 to 1023, by the exponent's field. A NaN for others.
fn two_to(k: f64) -> f64
    ensures { result ≡ two_to k }
{
    let field = k + 1023.0;
    if field >= 1.0 && field <= 2046.0 {
        return f64::from_bits(truncating_f64_to_u64(field) * LEADING);
    }
    f64::NAN
}
