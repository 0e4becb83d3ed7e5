// Energies of bands, and bands averaged by fours.
ghost use Rattle.std.specs.Prelude.{ℕ, ◌+◌, ◌-◌, ◌*◌, ◌/◌, ◌<◌, ◌≤◌, drop, length, [], ◌++◌, ◌≡◌};
ghost use Rattle.matcher_spec.specs.Energy.{Holds, all_averages, all_energies, average, averages, bands_of, energies, whole_energies};
ghost use Rattle.matcher_spec.specs.Limits.{bands_most};
ghost use Rattle.numbers_spec.specs.Arithmetic.{zero⁺};
ghost use Rattle.numbers_spec.specs.Rows.{tabulate};

use crate::rows::{fill_bands, fill_sums};
use matcher_spec::limits::BANDS_MOST;
use numbers_rows::passes::fill_by;

// Fills the row with the prefix sums of the squares: one more than there are values.
fn fill_energy(row: &mut [f64], values: &[f32])
    requires { length row.old ≡ length values.now + 1 }
    ensures { row.new ≡ energies values.now }
{
    fill_sums(row, values, |v| v * v);
}

// Fills each band's row in its own stretch of the slice; what is past the last stays.
// Kept: values, bands and n one by one, here and below. A `Bands` has energies besides, which these
// functions fill or don't ask for; a struct of the three alone would be built for each of four calls.
pub fn fill_energies(energy: &mut [f64], values: &[f32], bands: usize, n: usize)
    requires fact_1 { bands * n ≤ length values.now }
    requires fact_2 { bands * (n + 1) ≤ length energy.old }
    ensures { energy.new ≡ all_energies bands n values.now ++ drop (bands * (n + 1)) energy.old }
{
    // Without a band n may be anything, and n + 1 may not fit.
    if bands > 0 {
        fill_bands(energy, values, bands, n, n + 1, fill_energy);
    }
}

// Each band's whole energy; 0.0 past the last band.
pub fn whole_energies(energy: &[f64], bands: usize, n: usize) -> [f64; BANDS_MOST]
    requires fact_1 { bands ≤ bands_most }
    requires fact_2 { bands * (n + 1) ≤ length energy.now }
    ensures { result ≡ whole_energies bands (bands_of n [] energy.now) ++ tabulate (λ (b : ℕ). zero⁺) (bands_most - bands) }
{
    let mut whole = [0.0f64; BANDS_MOST];
    for b in 0..bands {
        whole[b] = energy[b * (n + 1) + n];
    }
    whole
}

// The average of the four values from `at` on.
#[tactic(auto, unfolding(matcher_spec::specs::Energy::average))]
fn average_at(values: &[f32], at: usize) -> f32
    requires { at + 3 < length values.now }
    ensures { result ≡ average values.now at }
{
    let sum = 0.0f32 + values[at] + values[at + 1] + values[at + 2] + values[at + 3];
    sum / 4.0
}

// Fills the row with the averages by fours.
fn fill_averages(row: &mut [f32], values: &[f32])
    requires { length row.old ≡ length values.now / 4 }
    ensures { row.new ≡ averages values.now }
{
    fill_by(row, |k| average_at(values, k * 4));
}

// Fills each band's averages in their own stretch of the slice; what is past the last stays.
pub fn reduce_bands(out: &mut [f32], values: &[f32], bands: usize, n: usize)
    requires fact_1 { bands * n ≤ length values.now }
    requires fact_2 { bands * (n / 4) ≤ length out.old }
    ensures { out.new ≡ all_averages bands n values.now ++ drop (bands * (n / 4)) out.old }
{
    fill_bands(out, values, bands, n, n / 4, fill_averages);
}

// Fills each band's averages and, from those, their energies, each in its own stretch of the two
// slices; what is past the last stays.
pub fn reduce_with_energies(
    out: &mut [f32],
    energy: &mut [f64],
    values: &[f32],
    bands: usize,
    n: usize,
)
    requires values_room { bands * n ≤ length values.now }
    requires holds { Holds bands (n / 4) out.old energy.old }
    ensures out_after { out.new ≡ all_averages bands n values.now ++ drop (bands * (n / 4)) out.old }
    ensures energy_after { energy.new ≡ all_energies bands (n / 4) (all_averages bands n values.now) ++ drop (bands * (n / 4 + 1)) energy.old }
{
    let size = n / 4;
    reduce_bands(out, values, bands, n);
    fill_energies(energy, &out[..bands * size], bands, size);
}
