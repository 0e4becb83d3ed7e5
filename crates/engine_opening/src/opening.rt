// Opening: fills the index of a reference and gives the engine that submissions start from.
ghost use Rattle.std.specs.Prelude.{◌<◌, ◌≤◌, length, cond, true, ◌≡◌};
ghost use Rattle.engine_spec.specs.Opening.{opened_index, opening, with_index, without_index};
ghost use Rattle.engine_spec.specs.Results.{opened};
ghost use Rattle.matcher_spec.specs.Index.{lent};
ghost use Rattle.numbers_spec.specs.Rows.{Every, F32};
ghost use Rattle.engine_spec.specs.Guaranteed.{GuaranteedOf};
ghost use Rattle.matcher_spec.specs.Limits.{bands_most, frames_most};

use engine_answers::fresh::{fresh_engine, with_index, without_index};
use engine_refusals::handed::check_opening;
use engine_spec::types::{Configuration, Engine, Refusal, Settings};
use matcher::index::fill_index;
use matcher_spec::lent::{Features, Index};

// Opens an engine over a reference, or refuses it by number and then writes nothing. Values lie
// band after band. A reference that the matcher rejects opens an engine without index, and nothing
// is written either; else the four slices hold its index, and what lay behind it stays. All that is
// promised of submissions to what was opened is `Guaranteed`.
// Kept: the four buffers of the index are filled here, so they are lent `&mut`, each by itself.
#[tactic(auto, unfolding(engine_spec::specs::Opening::opening), using(crate::proofs::OpenLaws::index_kept, crate::proofs::OpenLaws::index_filled))]
pub fn open(
    configuration: Configuration,
    hop: f64,
    reference: &Features<'_>,
    fine: &mut [f32],
    coarse: &mut [f32],
    fine_energy: &mut [f64],
    coarse_energy: &mut [f64],
) -> Result<Engine, Refusal>
    ensures value { result ≡ opened (opening configuration hop reference.now (lent fine.old coarse.old fine_energy.old coarse_energy.old)) }
    ensures index { lent fine.new coarse.new fine_energy.new coarse_energy.new ≡ opened_index configuration hop reference.now (lent fine.old coarse.old fine_energy.old coarse_energy.old) }
    ensures guaranteed { GuaranteedOf configuration hop reference.now (lent fine.new coarse.new fine_energy.new coarse_energy.new) result }
{
    let index = Index {
        fine,
        coarse,
        fine_energy,
        coarse_energy,
    };
    check_opening(configuration, hop, reference, &index)?;
    are_f32(reference.values);
    let accepted = fill_index(fine, coarse, fine_energy, coarse_energy, hop, reference);
    Ok(fresh_engine(configuration, opened_settings(accepted, hop, reference)))
}

// The settings over a reference that the matcher accepted, or over none.
fn opened_settings(accepted: bool, hop: f64, reference: &Features<'_>) -> Settings
    requires some { accepted ≡ true → 0 < length reference.now.times }
    requires few { length reference.now.times ≤ frames_most }
    requires few_bands { reference.now.bands ≤ bands_most }
    ensures { result ≡ cond accepted (with_index hop reference.now) (without_index hop) }
{
    if accepted {
        with_index(hop, reference)
    } else {
        without_index(hop)
    }
}

// A slice of f32 holds no other numbers, which the guarantee asks of a reference's values.
pub fn are_f32(values: &[f32])
    ensures { Every F32 values.now }
{
    let _ = values;
}
