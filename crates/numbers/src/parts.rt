// A finite f64 taken apart into whole numbers.
ghost use Rattle.std.specs.Prelude.{◌*◌, ◌^◌, ◌<◌, ◌≤◌, T};
ghost use Rattle.std.specs.Float.Ieee.Scale.{finite};
ghost use Rattle.std.specs.Float.Ieee.Exact.{HasValue};

// 2 ^ 52: the weight of an f64's leading digit, and of its exponent's field.
pub const LEADING: u64 = 0x10_0000_0000_0000;

// The smallest f64 is 2 ^ -1074: from this exponent on, a number of such units is whole.
pub const WHOLE: u64 = 1074;

// sig * 2 ^ exp units of 2 ^ -1074, the smallest f64; negative where `minus` is true. A sig of fewer
// than 53 digits is a subnormal's: its exp is 0.
#[derive(Clone, Copy)]
pub struct Parts {
    pub minus: bool,
    pub sig: u64,
    pub exp: u64,
    ghost sig_lt: { sig < 2 ^ 53 },
    ghost exp_le: { exp ≤ 2045 },
    ghost full: { 0 < exp → 2 ^ 52 ≤ sig },
}

// An exponent's field of 0 has no leading digit, and counts as a field of 1.
pub fn split(x: f64) -> Parts
    requires { T (finite x) }
    ensures { HasValue x result.minus (result.sig * 2 ^ result.exp) (2 ^ 1074) }
{
    let bits = x.to_bits();
    let minus = bits >= 0x8000_0000_0000_0000;
    let field = bits / LEADING % 2048;
    let low = bits % LEADING;
    Parts {
        minus,
        sig: if field == 0 { low } else { low + LEADING },
        exp: field.saturating_sub(1),
    }
}
