// What filling a load refuses.
ghost use Rattle.std.specs.Prelude.{◌≤◌, OnOk, length, ◌≡◌};
ghost use Rattle.std.specs.Result.{result_err};
ghost use Rattle.matcher_spec.specs.Limits.{frames_most};
ghost use Rattle.workload_spec.specs.Fill.{load_number, load_refusal};

use engine_refusals::ranges::is_hop;
use engine_refusals::refusals::number_of;
use engine_refusals::states::are_counts;
use engine_spec::lent::Window;
use engine_spec::types::Refusal;
use workload_spec::types::LoadRefusal;

// 16, 2, 3 and 4, in this order. Sizes are tested before any product of them.
#[tactic(auto, unfolding(workload_spec::specs::Fill::load_refusal), using(engine_refusals::proofs::Products::few))]
pub fn check_load(seed: u64, hop: f64, lent: &Window<'_>) -> Result<(), LoadRefusal>
    ensures value { result_err result ≡ load_refusal seed hop lent.now }
    ensures few_frames { OnOk result (length lent.now.times ≤ frames_most) }
{
    let n = lent.times.len();
    if seed == 0 {
        return Err(LoadRefusal::SeedZero);
    }
    if !is_hop(hop) {
        return Err(LoadRefusal::HopOutOfRange);
    }
    if !are_counts(n, lent.bands) {
        return Err(LoadRefusal::TooLarge);
    }
    if lent.energies.len() != n || lent.values.len() != lent.bands * n {
        return Err(LoadRefusal::Miscounted);
    }
    Ok(())
}

// The number of document 02; what opening refuses too has opening's.
// Kept: the C interface's numbers; `From` would stand in workload_spec, which has no functions.
#[tactic(auto, unfolding(workload_spec::specs::Fill::load_number))]
pub fn load_number(r: LoadRefusal) -> u32
    ensures { result ≡ load_number r }
{
    match r {
        LoadRefusal::SeedZero => 16,
        LoadRefusal::HopOutOfRange => number_of(Refusal::HopOutOfRange),
        LoadRefusal::TooLarge => number_of(Refusal::ReferenceTooLarge),
        LoadRefusal::Miscounted => number_of(Refusal::ReferenceMiscounted),
    }
}
