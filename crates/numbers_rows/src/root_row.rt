// The square roots of a row of numbers, in three short passes without a branch, so that they become
// vector code: two come near, on which nothing rests but time, and the third checks each root in
// floats, by products that are all exact. A row that is not sure as a whole is given to `root`, one
// number after the other.
ghost use Rattle.std.specs.Prelude.{ℕ, ◌<◌, get_or, length, true, ◌≡◌};
ghost use Rattle.std.specs.Float.{nan};
ghost use Rattle.numbers_rows.specs.Rows.{Ranged};
ghost use Rattle.numbers_spec.specs.Rows.{roots_of};
ghost use Rattle.numbers_spec.specs.Root.{root_of};

use crate::passes::{all_by, fill_by};
use numbers::float::{at_least, at_most};
use numbers::root::root;

// The square roots of x.
pub fn root_row(roots: &mut [f64], x: &[f64])
    requires { length roots.old ≡ length x.now }
    ensures { roots.new ≡ roots_of x.now }
{
    fill_by(roots, |i| near(x[i]));
    refine_row(roots, x);
    if all_by(x.len(), |i| is_root(x[i], roots[i])) {
        return;
    }
    fill_by(roots, |i| root(x[i]));
}

// A number near √x, to about one part in 2 ^ 23. Half the pattern, taken off a constant, is that of a
// number near 1 / √x but for a factor; one of Newton's steps, by a factor such that it has but one
// constant, gives half of 1 / √x, and one of Heron's ends at √x.
fn near(x: f64) -> f64 {
    let v = at_least(1.0e-280, x);
    let y = f64::from_bits(0x5fdb_f800_0000_0000 - v.to_bits() / 2);
    let h = y * (1.19107346 - v * (y * y));
    v * h + 0.24999995 / h
}

// The roots, from numbers near them: nearly all are right. Each is brought into the range.
fn refine_row(roots: &mut [f64], x: &[f64])
    requires { length roots.old ≡ length x.now }
    ensures { (k : ℕ) → k < length x.now → Ranged (get_or roots.new k nan) }
{
    for i in 0..roots.len() {
        roots[i] = in_range(refine(x[i], roots[i]));
    }
}

// The ends of the range of roots that are checked: between them no product leaves the normal numbers.
const LEAST: f64 = 1.0e-140;

const MOST: f64 = 1.0e140;

// 2 ^ 27: the lower half of a number's 53 digits.
const HALF: u64 = 0x800_0000;

// √x from a number near it. With 26 digits its square is exact, so that what x lacks of the square is
// exact too; two terms of the series of the root bring it to a small part of the last digit.
fn refine(x: f64, near: f64) -> f64 {
    let c = f64::from_bits(at_least(LEAST, near).to_bits() / HALF * HALF);
    let r = 0.5 / c;
    let q = (x - c * c) * r;
    c + (q - q * q * r)
}

// s, or the end of the range that it lies beyond. A NaN counts as below.
fn in_range(s: f64) -> f64
    ensures { Ranged result }
{
    at_most(MOST, at_least(LEAST, s))
}

// 2 ^ 52, the weight of a pattern's exponent; and what lies between a pattern and that of the number's
// last digit, which is 52 places down: one more, since at a power of two the last digit is that of the
// numbers below, which are its neighbours too.
const LEADING: u64 = 0x10_0000_0000_0000;

const LAST: u64 = 52 * LEADING + 1;

// Whether s is surely the root of x. In units of its last digit s is a whole number c, and it is the
// nearest to the root if x - s * s is less than c such units squared. By halves of s each product is
// exact, and where the difference is so small the first two subtractions are.
fn is_root(x: f64, s: f64) -> bool
    requires { Ranged s }
    ensures { result ≡ true → s ≡ root_of x }
{
    let b = s.to_bits();
    let high = f64::from_bits((b + HALF / 2) / HALF * HALF);
    let low = s - high;
    let rest = x - high * high - 2.0 * high * low - low * low;
    let unit = f64::from_bits((b - LAST) / LEADING * LEADING);
    at_least(-rest, rest) < unit * s
}
