// The square root, from bits. A guess in floats, on which nothing rests but time, is checked and
// mended by one in whole numbers (`polish`), exactly; std's whole root stands in where the guess is off.
// Kept: document 01 wants the root worked out from bits, so f64's own `sqrt`, the processor's, is not asked.
ghost use Rattle.std.specs.Prelude.{◌≡◌, ◌+◌, ◌*◌, ◌%◌, ◌^◌, ◌<◌, ◌≤◌, IfSome, if◌then◌else◌, nat_lt, to_bits};
ghost use Rattle.std.specs.Float.{binary64};
ghost use Rattle.numbers_spec.specs.Root.{NearRoot, root_of, root_units};
ghost use Rattle.numbers.specs.Parts.{Normalised};

use crate::parts::{LEADING, Parts, split};

// The square root of x: the nearest f64 to the exact root. A zero and a NaN are given back.
pub fn root(x: f64) -> f64
    ensures { result ≡ root_of x }
{
    if x > 0.0 {
        if x < f64::INFINITY {
            return f64::from_bits(root_bits(split(x)));
        }
        return x;
    }
    if x < 0.0 {
        return f64::NAN;
    }
    x
}

// What half the exponent of the number under the root lacks of the root's own: (1074 - 2 * 52) / 2,
// since in units of 2 ^ -1074 the root of n is that of n * 2 ^ 1074, and both have 52 digits after
// the leading one.
const HALF_BIAS: u64 = 485;

// 2 ^ 53, the first number of 54 digits: the most that the nearest whole number to a root can be.
const CARRIED: u64 = 2 * LEADING;

// The bit pattern of the root of a number above zero.
fn root_bits(p: Parts) -> u64
    requires { 0 < p.sig }
    ensures { result ≡ to_bits binary64 (root_units (p.sig * 2 ^ p.exp)) }
{
    let n = normalise(p);
    (n.scale / 2 + HALF_BIAS) * LEADING + root_digits(n)
}

// A significand of 53 digits, and the exponent that its leading digit has in units of 2 ^ -1074.
#[derive(Clone, Copy)]
struct Normal {
    full: u64,
    scale: u64,
    ghost full_ge: { 2 ^ 52 ≤ full },
    ghost full_lt: { full < 2 ^ 53 },
}

// Brings a significand to 53 digits by its leading zeros, so that a subnormal goes the same way as
// others. A normal has them already: the test spares the count.
fn normalise(p: Parts) -> Normal
    requires { 0 < p.sig }
    ensures { Normalised p.sig p.exp result.full result.scale }
{
    if p.sig >= LEADING {
        return Normal {
            full: p.sig,
            scale: p.exp + 52,
        };
    }
    let zeros = u64::from(p.sig.leading_zeros()) - 11;
    Normal {
        full: p.sig << zeros,
        scale: p.exp + 52 - zeros,
    }
}

// The whole number nearest to the root of full * 2 ^ 52, or of twice that where the exponent is odd. No
// branch on that: it is as good as random.
fn root_digits(n: Normal) -> u64
    ensures { NearRoot (n.full * 2 ^ (52 + n.scale % 2)) result }
{
    let odd = n.scale % 2;
    let c = guess(0x3fe0_0000_0000_0000 + odd * LEADING + n.full);
    near_root(c, u128::from(n.full) << (52 + odd))
}

// The whole number nearest to the root of n, from a guess c.
// Kept: n and its facts one by one, since with a struct of them the proof of `polish`, which needs c's
// bound too, did not close, neither by search nor by hand.
fn near_root(c: u64, n: u128) -> u64
    requires c_some { 0 < c }
    requires c_most { c ≤ 2 ^ 53 }
    requires n_some { 0 < n }
    requires n_small { n < 2 ^ 106 }
    ensures { NearRoot n result }
{
    polish(c, n).unwrap_or_else(|| whole_root(n))
}

// A number near the root of v * 2 ^ 104, for the v from 1 up to 4 of the bit pattern `bits`. Half
// the pattern, taken off a constant, is that of a number near 1 / √v but for a factor; two of
// Newton's steps, the first with constants fitted to that factor, bring it to one part in a million,
// and a step of the third order ends at √v. That it is near is not proved, and nothing rests on it
// but time.
fn guess(bits: u64) -> u64
    requires bits_ge { 1023 * 2 ^ 52 ≤ bits }
    requires bits_lt { bits < 1025 * 2 ^ 52 }
    ensures { (0 < result) × (result ≤ 2 ^ 53) }
{
    let v = f64::from_bits(bits);
    let y0 = f64::from_bits(0x5fec_0000_0000_0000 - bits / 2);
    let y1 = 1.18928029 * y0 - 0.248877037 * v * y0 * (y0 * y0);
    let y2 = 1.5 * y1 - 0.5 * v * y1 * (y1 * y1);
    let s = v * y2;
    let e = 1.0 - s * y2;
    let r = s + s * e * (0.5 + 0.375 * e);
    if r >= 2.0 {
        return CARRIED;
    }
    if r >= 1.0 {
        return r.to_bits() % LEADING + LEADING;
    }
    LEADING
}

// The exact check: c, or the neighbour of c, that is the whole number nearest to the root of n, if one of
// the three is. `rest` is n - c * c + 3 * c - 3: below 6 * c the three are enough, and 2 * c and 4 * c
// part them, since (c ± 1/2) ^ 2 is c * c ± c + 1/4. The choice among the three has no branch: a guess is
// off by one in one of seven.
fn polish(c: u64, n: u128) -> Option<u64>
    requires c_some { 0 < c }
    requires c_most { c ≤ 2 ^ 53 }
    requires n_small { n < 2 ^ 106 }
    ensures { IfSome result (λ r. NearRoot n r) }
{
    let wide = u128::from(c);
    let rest = (n + 3 * wide).checked_sub(wide * wide + 3)?;
    if rest >= 6 * wide {
        return None;
    }
    let rest = rest as u64;
    Some(c + one_if_above(rest + 3, 4 * c) - one_if_above(2 * c + 1, rest + 3))
}

// 1 where a is above b, else 0.
fn one_if_above(a: u64, b: u64) -> u64
    ensures { (result ≡ (if nat_lt b a then 1 else 0)) × (result ≤ 1) }
{
    u64::from(a > b)
}

// The whole number nearest to the root of n, from the root without its fraction.
fn whole_root(n: u128) -> u64
    requires n_some { 0 < n }
    requires n_small { n < 2 ^ 106 }
    ensures { NearRoot n result }
{
    let s = n.isqrt();
    if s * s + s < n {
        return (s + 1) as u64;
    }
    s as u64
}
