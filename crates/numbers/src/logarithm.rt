// L, which stands for the natural logarithm, `ln_1p` and `log10`: document 01's steps, each
// operation rounded once.
ghost use Rattle.std.specs.Float.{inf};
ghost use Rattle.std.specs.Float.Ieee.{le, lt};
ghost use Rattle.std.specs.Prelude.{◌≡◌, false, if◌then◌else◌};
ghost use Rattle.numbers_spec.specs.Arithmetic.{◌⊕◌, ◌⊗◌, one, zero⁺};
ghost use Rattle.numbers_spec.specs.Logarithm.{exponent, half, log10_of, log1p_of, log_at, log_of, log_series, log_twice, mantissa, sqrt2};

use crate::constants::{HI, LN_10, LO, SERIES_MOST};
use crate::float::widen;
use crate::narrow::narrow;
use crate::parts::LEADING;

// The bit pattern of 1.0: its exponent's field alone.
const ONE: u64 = 1023 * LEADING;

// 2 ^ -1022.
const SMALLEST_NORMAL: f64 = 2.2250738585072014e-308;

// Above it m is halved, so that it stays near 1.
const SQRT_2: f64 = 1.4142135623730951;

// L(v), for a positive normal v or plus infinity. A NaN for others.
pub fn ln(v: f64) -> f64
    ensures { result ≡ log_of v }
{
    if v >= SMALLEST_NORMAL {
        if v < f64::INFINITY {
            let m = mantissa(v);
            return log_at(halved(m), raised(exponent(v), m));
        }
        return v;
    }
    f64::NAN
}

// m of v = m * 2 ^ e. A NaN, whose pattern can't be read, has the digits of 1.5.
pub fn mantissa(v: f64) -> f64
    ensures { result ≡ mantissa v }
{
    f64::from_bits(number_or(v, 1.5).to_bits() % LEADING + ONE)
}

// e of v = m * 2 ^ e. A NaN has the exponent's field of an infinity.
pub fn exponent(v: f64) -> f64
    ensures { result ≡ exponent v }
{
    (number_or(v, f64::INFINITY).to_bits() / LEADING) as f64 - 1023.0
}

// v, or z where v is a NaN; without a branch.
fn number_or(v: f64, z: f64) -> f64
    ensures { result ≡ (if le v (inf false) then v else z) }
{
    if v <= f64::INFINITY { v } else { z }
}

// m, halved where it is above √2; and the e beside it. Both without a branch: which way an m goes is
// as good as random.
pub fn halved(m: f64) -> f64
    ensures { result ≡ (if lt sqrt2 m then (m ⊗ half) else m) }
{
    if m > SQRT_2 { m * 0.5 } else { m }
}

pub fn raised(e: f64, m: f64) -> f64
    ensures { result ≡ (if lt sqrt2 m then (e ⊕ one) else e) }
{
    if m > SQRT_2 { e + 1.0 } else { e }
}

// The nearest f32 of ln(1 + w). Up to 0.375 the series takes w itself: 1 + w would lose its last
// digits.
pub fn ln_1p(w: f32) -> f32
    ensures { result ≡ log1p_of w }
{
    let x = widen(w);
    if x <= SERIES_MOST {
        return narrow(log_twice(x / (2.0 + x)));
    }
    narrow(ln(1.0 + x))
}

// log10(v).
pub fn log10(v: f64) -> f64
    ensures { result ≡ log10_of v }
{
    ln(v) / LN_10
}

// L of m * 2 ^ e, with m near 1.
fn log_at(m: f64, e: f64) -> f64
    ensures { result ≡ log_at m e }
{
    let t = log_twice((m - 1.0) / (m + 1.0));
    e * HI + (e * LO + t)
}

// 2 * (s * q): the logarithm of (1 + s) / (1 - s).
fn log_twice(s: f64) -> f64
    ensures { result ≡ log_twice s }
{
    2.0 * (s * log_series(s * s))
}

// q = q * z + 1 / n, from q = 0, for n = 23, 21, .. 1.
fn log_series(z: f64) -> f64
    ensures { result ≡ log_series 12 z zero⁺ }
{
    let mut q = 0.0;
    for i in (0..12u64).rev() {
        q = q * z + 1.0 / ((2 * i + 1) as f64);
    }
    q
}
