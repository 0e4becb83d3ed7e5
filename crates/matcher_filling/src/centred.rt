// The bands of a reference or a window, centred, with their energies.
ghost use Rattle.std.specs.Prelude.{ℕ, ◌+◌, ◌-◌, ◌*◌, ◌<◌, ◌≤◌, drop, length, take, ◌≡◌};
ghost use Rattle.matcher_spec.specs.Centring.{centred, kept, radius_most};
ghost use Rattle.matcher_spec.specs.Energy.{all_energies, Holds};
ghost use Rattle.numbers_spec.specs.Rows.{row, rows};

use matcher_bands::centring::{Centring, centre_bands};
use matcher_bands::energy::fill_energies;
use matcher_spec::lent::Features;

// Centres each band but for `cut` frames at each end, and sums up the energies of what is left, at
// the fronts of the two slices. The sums that centring needs stand in the energies' place until
// these are filled.
pub fn fill_centred(
    values: &mut [f32],
    energy: &mut [f64],
    source: &Features<'_>,
    radius: usize,
    cut: usize,
)
    requires some_bands { 0 < source.now.bands }
    requires some_left { 2 * cut < length source.now.times }
    requires radius_small { radius ≤ radius_most }
    requires full { source.now.bands * length source.now.times ≤ length source.now.values }
    requires holds { Holds source.now.bands (length source.now.times) values.old energy.old }
    ensures values_front { take (source.now.bands * (length source.now.times - 2 * cut)) values.new ≡ rows (λ (b : ℕ). kept cut (centred radius (row (length source.now.times) source.now.values b))) source.now.bands }
    ensures values_rest { drop (source.now.bands * length source.now.times) values.new ≡ drop (source.now.bands * length source.now.times) values.old }
    ensures energy_front { take (source.now.bands * (length source.now.times - 2 * cut + 1)) energy.new ≡ all_energies source.now.bands (length source.now.times - 2 * cut) (take (source.now.bands * (length source.now.times - 2 * cut)) values.new) }
    ensures energy_rest { drop (source.now.bands * (length source.now.times + 1)) energy.new ≡ drop (source.now.bands * (length source.now.times + 1)) energy.old }
{
    let bands = source.bands;
    let frames = source.times.len();
    let n = frames - 2 * cut;
    let centring = Centring {
        frames,
        radius,
        from: cut,
        count: n,
    };
    centre_bands(
        values,
        &mut energy[..frames + 1],
        source.values,
        bands,
        centring,
    );
    fill_energies(energy, &values[..bands * n], bands, n);
}
