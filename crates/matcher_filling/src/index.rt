// The index: what opening fills from a reference, and what a search knows of it.
ghost use Rattle.std.specs.Prelude.{◌*◌, ◌/◌, length, true, ◌≡◌};
ghost use Rattle.matcher_spec.specs.Energy.{Holds};
ghost use Rattle.matcher_spec.specs.Index.{accepts_reference, filled, matcher_of};
ghost use Rattle.matcher_spec.specs.Centring.{wide_hop};

use crate::centred::fill_centred;
use matcher_bands::centring::radius;
use matcher_bands::energy::reduce_with_energies;
use matcher_bands::timeline::{are_valid, is_regular};
use matcher_spec::lent::Features;

// Whether the reference is one that can be searched.
#[tactic(auto, unfolding(matcher_spec::specs::Index::accepts_reference))]
pub fn accepts_reference(hop: f64, reference: &Features<'_>) -> bool
    ensures { result ≡ accepts_reference hop reference.now.bands reference.now.times reference.now.values }
{
    is_regular(reference.times, hop) & ((reference.bands > 0) & are_valid(reference.values))
}

// Fills the fronts of the four buffers from the reference, and says so. Where the reference is
// rejected, nothing is written.
// Kept: four slices, since they are filled, and an `Index` is to be read.
pub fn fill_index(
    fine: &mut [f32],
    coarse: &mut [f32],
    fine_energy: &mut [f64],
    coarse_energy: &mut [f64],
    hop: f64,
    reference: &Features<'_>,
) -> bool
    requires hop_value_1 { wide_hop hop ≡ true }
    requires hop_value_2 { length reference.now.values ≡ reference.now.bands * length reference.now.times }
    requires holds_1 { Holds reference.now.bands (length reference.now.times) fine.old fine_energy.old }
    requires holds_2 { Holds reference.now.bands (length reference.now.times / 4) coarse.old coarse_energy.old }
    ensures value { result ≡ accepts_reference hop reference.now.bands reference.now.times reference.now.values }
    ensures fine_after { fine.new ≡ filled result (matcher_of hop reference.now.bands reference.now.times reference.now.values).fine.values fine.old }
    ensures coarse_after { coarse.new ≡ filled result (matcher_of hop reference.now.bands reference.now.times reference.now.values).coarse.values coarse.old }
    ensures fine_energy_after { fine_energy.new ≡ filled result (matcher_of hop reference.now.bands reference.now.times reference.now.values).fine.energy fine_energy.old }
    ensures coarse_energy_after { coarse_energy.new ≡ filled result (matcher_of hop reference.now.bands reference.now.times reference.now.values).coarse.energy coarse_energy.old }
{
    if !accepts_reference(hop, reference) {
        return false;
    }
    let bands = reference.bands;
    let n = reference.times.len();
    fill_centred(fine, fine_energy, reference, radius(hop), 0);
    reduce_with_energies(coarse, coarse_energy, &fine[..bands * n], bands, n);
    true
}
