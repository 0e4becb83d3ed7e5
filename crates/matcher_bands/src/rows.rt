// Passes that rows share: prefix sums, one band after the other.
ghost use Rattle.std.specs.Prelude.{ℕ, ◌+◌, ◌*◌, ◌<◌, ◌≤◌, List, Float, drop, get_or, length, ◌++◌, ◌≡◌};
ghost use Rattle.std.specs.Float.{nan};
ghost use Rattle.numbers_spec.specs.Rows.{row, rows, sum_to, tabulate};

use numbers::float::widen;

// Fills the row with the prefix sums of what `term` makes of each value: one more than there are values.
pub fn fill_sums<F: Fn(f64) -> f64>(sums: &mut [f64], values: &[f32], term: F)
    requires size { length sums.old ≡ length values.now + 1 }
    requires callable { (x : Float) → F.pre term x }
    ensures { (t : ℕ → Float) → ((i : ℕ) (x : Float) → i < length values.now → F.post term (get_or values.now i nan) x → x ≡ t i) → sums.new ≡ tabulate (sum_to t) (length values.now + 1) }
{
    let mut sum = 0.0f64;
    for i in 0..values.len() {
        sums[i] = sum;
        sum = sum + term(widen(values[i]));
    }
    sums[values.len()] = sum;
}

// Fills each band's part of the slice, `size` elements of its n values; what is past the last stays.
pub fn fill_bands<T: Copy, F: Fn(&mut [T], &[f32])>(
    out: &mut [T],
    values: &[f32],
    bands: usize,
    n: usize,
    size: usize,
    fill: F,
)
    requires values_room { bands * n ≤ length values.now }
    requires out_room { bands * size ≤ length out.old }
    requires callable { (part : _) (band : _) → length part.now ≡ size → length band.now ≡ n → F.pre fill part band }
    ensures { (f : List Float → List T) → ((part : _) (band : _) (after : _) → length part.now ≡ size → length band.now ≡ n → F.post fill part band tt after → after.now ≡ f band.now) → out.new ≡ rows (λ (b : ℕ). f (row n values.now b)) bands ++ drop (bands * size) out.old }
{
    for b in 0..bands {
        let from = b * n;
        let to = from + n;
        let at = b * size;
        let end = at + size;
        fill(&mut out[at..end], &values[from..to]);
    }
}
