// The nearest f32 of an f64, from its bits: leading zeros tell how many digits to leave off, one
// rounding of the whole significand then gives the pattern, whose exponent counts a carry by itself.
// Kept: document 01 wants it worked out from bits, so std's conversion, the processor's, is not asked.
ghost use Rattle.std.specs.Prelude.{◌≡◌, ◌*◌, ◌^◌, ◌<◌, ◌≤◌, if◌then◌else◌, to_bits};
ghost use Rattle.std.specs.Float.Ieee.Nearest.{closest};
ghost use Rattle.std.specs.Float.{binary32};
ghost use Rattle.std.specs.Float.Ieee.{round};
ghost use Rattle.numbers.specs.Parts.{Dropped};
ghost use Rattle.numbers.specs.Plain.{Plain, plain};
ghost use Rattle.numbers_spec.specs.Narrow.{nearest_f32};

use crate::float::{at_least, is_finite};
use crate::parts::{Parts, WHOLE, split};

// An f64 has 53 digits and an f32 24, so this many are left off.
const EXCESS: u64 = 53 - 24;

// A unit of 2 ^ -1074, the smallest f64, is 2 ^ 925 times finer than one of 2 ^ -149, the smallest
// f32.
const FINER: u64 = WHOLE - 149;

// 2 ^ 23, the weight of an f32's exponent field; and the pattern of plus infinity, whose field is 255.
const FIELD: u64 = 0x80_0000;

const INFINITY: u64 = 255 * FIELD;

// The most digits that a finite f32 leaves off in units of 2 ^ -149: its field has 1 more.
const MOST: u64 = 253;

// The exponents of a 53-digit significand whose f32 is normal, but for a carry into infinity.
const LEAST_NORMAL: u64 = FINER - EXCESS;

const LAST_NORMAL: u64 = LEAST_NORMAL + MOST;

// How many digits reach from 2 ^ -1074 up to the 24 that an f32 keeps.
const KEPT: u64 = FINER + 24;

// The f32 nearest to x, a tie to the one whose last digit is even.
pub fn narrow(x: f64) -> f32
    ensures { result ≡ nearest_f32 x }
{
    if is_finite(x) {
        return f32::from_bits(narrow_bits(split(x)) as u32);
    }
    if x > 0.0 {
        return f32::INFINITY;
    }
    if x < 0.0 {
        return f32::NEG_INFINITY;
    }
    f32::NAN
}

// The bit pattern of the f32 nearest to the number of these parts. A normal f64 whose f32 is normal too
// leaves off 29 digits: that case, nearly all, goes first.
fn narrow_bits(p: Parts) -> u64
    ensures { result ≡ to_bits binary32 (round binary32 p.minus (p.sig * 2 ^ p.exp) (2 ^ 1074)) }
{
    if p.exp >= LEAST_NORMAL && p.exp <= LAST_NORMAL {
        return sign_bit(p.minus) + ((p.exp - LEAST_NORMAL) * FIELD + nearest(p.sig, EXCESS));
    }
    any_bits(p)
}

// The pattern of the nearest f32, for what `narrow_bits` does not take itself: subnormal results,
// zero and infinity.
fn any_bits(p: Parts) -> u64
    ensures { result ≡ to_bits binary32 (round binary32 p.minus (p.sig * 2 ^ p.exp) (2 ^ 1074)) }
{
    let drop = dropped(p);
    let sign = sign_bit(p.minus);
    if drop > MOST {
        return sign + INFINITY;
    }
    let gap = FINER + drop - p.exp;
    if gap > 63 {
        return sign + drop * FIELD;
    }
    sign + (drop * FIELD + nearest(p.sig, gap))
}

// How many binary digits the nearest f32 of a number leaves off, counted in units of 2 ^ -149, the
// smallest f32. For a subnormal result that is 0.
fn dropped(p: Parts) -> u64
    ensures { Dropped p.sig p.exp result }
{
    let digits = 64 - u64::from(p.sig.leading_zeros());
    (p.exp + digits).saturating_sub(KEPT)
}

// sig / 2 ^ shift to the nearest whole number, a tie to the even one, by the sum of `by_sum`: just under
// a half is added, or a half where the last digit kept is odd. No branch: the rest is as good as random.
fn nearest(sig: u64, shift: u64) -> u64
    requires sig_lt { sig < 2 ^ 63 }
    requires shift_some { 0 < shift }
    requires shift_lt { shift < 64 }
    ensures { result ≡ closest sig (2 ^ shift) }
{
    let half = 1u64 << (shift - 1);
    let odd = (sig >> shift) % 2;
    (sig + (half - 1) + odd) >> shift
}

// The sign's bit of an f32.
fn sign_bit(minus: bool) -> u64
    ensures { result ≡ (if minus then 2147483648 else 0) }
{
    u64::from(minus) << 31
}

// The least normal f32, 2 ^ -126, and the largest.
const NORMAL_LEAST: f64 = 1.1754943508222875e-38;

const NORMAL_MOST: f64 = 3.4028234663852886e38;

// Whether x is plain, for `narrow_plain`: +0, as silence brings, or from the least normal f32 to the
// largest. No branch. (Any floor below 0 serves: it stands for a NaN, whose pattern can't be read.)
pub fn is_plain(x: f64) -> bool
    ensures { result ≡ plain x }
{
    (x >= NORMAL_LEAST) & (x <= NORMAL_MOST) | (at_least(-1.0, x).to_bits() == 0)
}

// The f32 nearest to a plain number. The sum is taken of the whole pattern, whose exponent counts a
// carry by itself and is then brought to the f32's. No test of the digits: in a row this is vector code.
pub fn narrow_plain(x: f64) -> f32
    requires { Plain x }
    ensures { result ≡ nearest_f32 x }
{
    if x > 0.0 {
        return f32::from_bits((nearest(x.to_bits(), EXCESS) - LEAST_NORMAL * FIELD) as u32);
    }
    0.0
}
