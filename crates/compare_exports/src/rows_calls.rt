// The number functions of whole rows, for Rust to call.
ghost use Rattle.std.specs.Prelude.{eqb, length, cond, ◌≡◌};
ghost use Rattle.numbers_spec.specs.Rows.{logs_of, narrowed_of, roots_of};

use numbers_rows::ln_1p_row::ln_1p_row;
use numbers_rows::narrow_row::narrow_row;
use numbers_rows::root_row::root_row;

// Each answers whether the row to be filled is as long as that of numbers; if not, nothing is written.
// Kept: three C names of four lines; one generic function would ask a closure's pre and post of each.
#[unsafe(no_mangle)]
pub extern "C" fn numbers_root_row(roots: &mut [f64], x: &[f64]) -> bool
    ensures value { result ≡ eqb (length roots.old) (length x.now) }
    ensures roots_after { roots.new ≡ cond (eqb (length roots.old) (length x.now)) (roots_of x.now) roots.old }
{
    if roots.len() == x.len() {
        root_row(roots, x);
        return true;
    }
    false
}

#[unsafe(no_mangle)]
pub extern "C" fn numbers_ln_1p_row(logs: &mut [f32], w: &[f32]) -> bool
    ensures value { result ≡ eqb (length logs.old) (length w.now) }
    ensures logs_after { logs.new ≡ cond (eqb (length logs.old) (length w.now)) (logs_of w.now) logs.old }
{
    if logs.len() == w.len() {
        ln_1p_row(logs, w);
        return true;
    }
    false
}

#[unsafe(no_mangle)]
pub extern "C" fn numbers_narrow_row(out: &mut [f32], x: &[f64]) -> bool
    ensures value { result ≡ eqb (length out.old) (length x.now) }
    ensures out_after { out.new ≡ cond (eqb (length out.old) (length x.now)) (narrowed_of x.now) out.old }
{
    if out.len() == x.len() {
        narrow_row(out, x);
        return true;
    }
    false
}
