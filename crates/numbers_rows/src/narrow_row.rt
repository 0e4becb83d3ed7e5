// The nearest f32 of each number of a row, by the sum of `narrow`, taken of whole patterns in a pass
// without a branch, so that it becomes vector code. That serves plain numbers, as logarithms and means
// are; a row with another one, whose f32 is negative, subnormal, infinite or a NaN, is given to
// `narrow`, one number after the other.
ghost use Rattle.std.specs.Prelude.{length, ◌≡◌};
ghost use Rattle.numbers_spec.specs.Rows.{narrowed_of};

use crate::passes::{all_by, fill_by};
use numbers::narrow::{is_plain, narrow, narrow_plain};

// The nearest f32 of each x.
pub fn narrow_row(out: &mut [f32], x: &[f64])
    requires { length out.old ≡ length x.now }
    ensures { out.new ≡ narrowed_of x.now }
{
    if all_by(x.len(), |i| is_plain(x[i])) {
        fill_by(out, |i| narrow_plain(x[i]));
        return;
    }
    fill_by(out, |i| narrow(x[i]));
}
