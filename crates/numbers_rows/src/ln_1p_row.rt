// `ln_1p` of each number of a row, in short passes; those of the series have no branch, so that a
// compiler can make them vector code. Each number goes the steps of `ln_1p` and `ln` in their order;
// both ways of it, up to 0.375 and above, are worked out, and one is chosen. A row with a NaN or plus
// infinity is given to `ln_1p`, one number after the other.
ghost use Rattle.std.specs.Prelude.{ℕ, ◌+◌, ◌*◌, ◌<◌, ◌≤◌, pos, Float, get_or, length, cond, true, ◌≡◌};
ghost use Rattle.std.specs.Float.{binary64, nan};
ghost use Rattle.std.specs.Float.Ieee.{le, of_int};
ghost use Rattle.numbers_rows.specs.Logs.{AllBelow, Below, Holds, joined, near_one, power, ratio, terms};
ghost use Rattle.numbers_spec.specs.Rows.{logs_of};
ghost use Rattle.numbers_spec.specs.Arithmetic.{◌⊕◌, ◌⊗◌, ◌⊘◌, one, zero⁺};
ghost use Rattle.numbers_spec.specs.Logarithm.{log_series, series_most};

use crate::narrow_row::narrow_row;
use crate::passes::{all_by, fill_by};
use numbers::constants::{HI, LO, SERIES_MOST};
use numbers::logarithm::{exponent, halved, ln_1p, mantissa, raised};

// ln(1 + w) of each w, as an f32.
pub fn ln_1p_row(logs: &mut [f32], w: &[f32])
    requires { length logs.old ≡ length w.now }
    ensures { logs.new ≡ logs_of w.now }
{
    if !all_by(w.len(), |i| is_below(w[i])) {
        fill_by(logs, |i| ln_1p(w[i]));
        return;
    }
    let mut near = [0.0f64; BLOCK];
    let mut powers = [0.0f64; BLOCK];
    let mut ratios = [0.0f64; BLOCK];
    let mut sums = [0.0f64; BLOCK];
    for at in (0..w.len()).step_by(BLOCK) {
        let end = w.len().min(at + BLOCK);
        let n = end - at;
        log_block(
            &mut logs[at..end],
            &w[at..end],
            &mut near[..n],
            &mut powers[..n],
            &mut ratios[..n],
            &mut sums[..n],
        );
    }
}

fn is_below(w: f32) -> bool
    ensures { result ≡ true → Below w }
{
    w < f32::INFINITY
}

// So many numbers go through the passes together that the working rows stay in the nearest cache.
pub const BLOCK: usize = 120;

// The logarithms of a block; the other rows are only worked in.
// Kept: six rows one by one, since with a struct of the working rows, cut once at the head, a row of 6000
// logarithms took 27.0 ns a number for 26.2.
fn log_block(
    logs: &mut [f32],
    w: &[f32],
    near: &mut [f64],
    powers: &mut [f64],
    ratios: &mut [f64],
    sums: &mut [f64],
)
    requires logs_len { length logs.old ≡ length w.now }
    requires near_len { length near.old ≡ length w.now }
    requires powers_len { length powers.old ≡ length w.now }
    requires ratios_len { length ratios.old ≡ length w.now }
    requires sums_len { length sums.old ≡ length w.now }
    requires below { AllBelow w.now }
    ensures { logs.new ≡ logs_of w.now }
{
    split_row(near, powers, w);
    fill_by(ratios, |k| ratio(wide(w[k]), near[k]));
    series_row(sums, ratios);
    fill_by(near, |k| join(powers[k], ratios[k], sums[k]));
    narrow_row(logs, near);
}

// m and e of each 1 + w.
// Kept: two rows in one pass, since a pass for each works out the mantissas twice, and a row of
// logarithms took 18.6 ns a number for 15.9.
fn split_row(near: &mut [f64], powers: &mut [f64], w: &[f32])
    requires near_len { length near.old ≡ length w.now }
    requires powers_len { length powers.old ≡ length w.now }
    requires below { AllBelow w.now }
    ensures near_are { Holds near_one w.now near.new }
    ensures powers_are { Holds power w.now powers.new }
{
    for k in 0..w.len() {
        let x = wide(w[k]);
        near[k] = near_one(x);
        powers[k] = power(x);
    }
}

// w, which is no NaN, as an f64.
fn wide(w: f32) -> f64
    requires { Below w }
    ensures { result ≡ w }
{
    w as f64
}

#[tactic(auto, unfolding(crate::specs::Logs::near_one))]
fn near_one(x: f64) -> f64
    ensures { result ≡ near_one x }
{
    halved(mantissa(1.0 + x))
}

#[tactic(auto, unfolding(crate::specs::Logs::power))]
fn power(x: f64) -> f64
    ensures { result ≡ power x }
{
    let v = 1.0 + x;
    by_size(x, -0.0, raised(exponent(v), mantissa(v)))
}

// The one of two that `ln_1p` takes up to 0.375, or the one above.
fn by_size(x: f64, small: f64, large: f64) -> f64
    ensures { result ≡ cond (le x series_most) small large }
{
    if x <= SERIES_MOST { small } else { large }
}

fn ratio(x: f64, m: f64) -> f64
    ensures { result ≡ ratio x m }
{
    by_size(x, x, m - 1.0) / by_size(x, 2.0 + x, m + 1.0)
}

// The twelve terms of each series, four in a pass: all in one would wait for each other.
fn series_row(sums: &mut [f64], ratios: &[f64])
    requires { length sums.old ≡ length ratios.now }
    ensures { Holds (λ s. log_series 12 (s ⊗ s) zero⁺) ratios.now sums.new }
{
    sums.fill(0.0);
    terms_row(sums, ratios, 8);
    terms_row(sums, ratios, 4);
    terms_row(sums, ratios, 0);
}

// Four more terms of each series, from 1 / (2i + 7) to 1 / (2i + 1).
fn terms_row(sums: &mut [f64], ratios: &[f64], i: u64)
    requires same_len { length sums.old ≡ length ratios.now }
    requires i_most { i ≤ 8 }
    ensures { (k : ℕ) → k < length ratios.now → get_or sums.new k nan ≡ terms 4 i (get_or ratios.now k nan ⊗ get_or ratios.now k nan) (get_or sums.old k nan) }
{
    let (a, b, c, d) = (term(i + 3), term(i + 2), term(i + 1), term(i));
    for k in 0..ratios.len() {
        sums[k] = four_terms(sums[k], ratios[k] * ratios[k], a, b, c, d);
    }
}

fn term(i: u64) -> f64
    requires { i ≤ 11 }
    ensures { result ≡ one ⊘ of_int binary64 (pos (2 * i + 1)) }
{
    1.0 / ((2 * i + 1) as f64)
}

fn four_terms(q: f64, z: f64, a: f64, b: f64, c: f64, d: f64) -> f64
    ensures { result ≡ (((q ⊗ z ⊕ a) ⊗ z ⊕ b) ⊗ z ⊕ c) ⊗ z ⊕ d }
{
    (((q * z + a) * z + b) * z + c) * z + d
}

// e * hi + (e * lo + 2 * (s * q)).
fn join(e: f64, s: f64, q: f64) -> f64
    ensures { result ≡ joined e s q }
{
    e * HI + (e * LO + 2.0 * (s * q))
}
