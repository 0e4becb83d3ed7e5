// The calls: open, submit, support age. Words too short are answered first, and then nothing is
// written.
ghost use Rattle.std.specs.Prelude.{length, false, ◌≡◌};
ghost use Rattle.engine_spec.specs.Guaranteed.{Guaranteed};
ghost use Rattle.engine_layout.specs.Layout.{state_in};
ghost use Rattle.matcher_spec.specs.Index.{lent};
ghost use Rattle.engine_spec.specs.Lent.{handed, window};
ghost use Rattle.engine_spec.specs.Opening.{opened_index, opening};
ghost use Rattle.engine_spec.specs.Submitting.{submit};
ghost use Rattle.engine_spec.specs.SupportAge.{support_age};
ghost use Rattle.kistovab.specs.Calls.{Opens, Submits, age_after, age_code, configured, index_after, open_code, submit_code};
ghost use Rattle.kistovab.specs.Codes.{answers};
ghost use Rattle.matcher_spec.specs.Features.{features};

// Kept: here and below numbers and flat slices, as the C interface lends them; the header has these names.
#[unsafe(no_mangle)]
pub extern "C" fn kistovab_open(
    minimum_readiness_duration_ms: f64,
    tracking_query_duration_ms: f64,
    minimum_active_frame_energy_dbfs: f64,
    minimum_average_energy_dbfs: f64,
    minimum_active_frame_fraction: f64,
    hop_ms: f64,
    bands: usize,
    times: &[f64],
    values: &[f32],
    fine: &mut [f32],
    coarse: &mut [f32],
    fine_energy: &mut [f64],
    coarse_energy: &mut [f64],
    state: &mut [u64],
) -> u32
    ensures value { result ≡ open_code (length state.old) (opening (configured minimum_readiness_duration_ms tracking_query_duration_ms minimum_active_frame_energy_dbfs minimum_average_energy_dbfs minimum_active_frame_fraction) hop_ms (features bands times.now values.now) (lent fine.old coarse.old fine_energy.old coarse_energy.old)) }
    ensures words { Opens result (opening (configured minimum_readiness_duration_ms tracking_query_duration_ms minimum_active_frame_energy_dbfs minimum_average_energy_dbfs minimum_active_frame_fraction) hop_ms (features bands times.now values.now) (lent fine.old coarse.old fine_energy.old coarse_energy.old)) state.old state.new }
    ensures index { lent fine.new coarse.new fine_energy.new coarse_energy.new ≡ index_after (length state.old) (opened_index (configured minimum_readiness_duration_ms tracking_query_duration_ms minimum_active_frame_energy_dbfs minimum_average_energy_dbfs minimum_active_frame_fraction) hop_ms (features bands times.now values.now) (lent fine.old coarse.old fine_energy.old coarse_energy.old)) (lent fine.old coarse.old fine_energy.old coarse_energy.old) }
    ensures guarantee { result ≡ 0 → Guaranteed (configured minimum_readiness_duration_ms tracking_query_duration_ms minimum_active_frame_energy_dbfs minimum_average_energy_dbfs minimum_active_frame_fraction) hop_ms (features bands times.now values.now) (lent fine.new coarse.new fine_energy.new coarse_energy.new) (opening (configured minimum_readiness_duration_ms tracking_query_duration_ms minimum_active_frame_energy_dbfs minimum_average_energy_dbfs minimum_active_frame_fraction) hop_ms (features bands times.now values.now) (lent fine.old coarse.old fine_energy.old coarse_energy.old)) }
{
    kistovab::calls::kistovab_open(
        minimum_readiness_duration_ms,
        tracking_query_duration_ms,
        minimum_active_frame_energy_dbfs,
        minimum_average_energy_dbfs,
        minimum_active_frame_fraction,
        hop_ms,
        bands,
        times,
        values,
        fine,
        coarse,
        fine_energy,
        coarse_energy,
        state,
    )
}

// A re-reading leaves the state as it is, a refusal both.
#[unsafe(no_mangle)]
pub extern "C" fn kistovab_submit(
    state: &mut [u64],
    fine: &[f32],
    coarse: &[f32],
    fine_energy: &[f64],
    coarse_energy: &[f64],
    bands: usize,
    times: &[f64],
    energies: &[f64],
    values: &[f32],
    clock_ms: f64,
    work32: &mut [f32],
    work64: &mut [f64],
    snapshot: &mut [u64],
) -> u32
    ensures value { result ≡ submit_code (length state.old) (length snapshot.old) (submit (state_in state.old) (handed (lent fine.now coarse.now fine_energy.now coarse_energy.now) (window bands times.now energies.now values.now) (record { 0 = clock_ms }) (length work32.old) (length work64.old))) }
    ensures words { Submits result (submit (state_in state.old) (handed (lent fine.now coarse.now fine_energy.now coarse_energy.now) (window bands times.now energies.now values.now) (record { 0 = clock_ms }) (length work32.old) (length work64.old))) state.old state.new snapshot.old snapshot.new }
    ensures untouched { answers result ≡ false → (work32.new ≡ work32.old) × (work64.new ≡ work64.old) }
    ensures lengths { (length work32.new ≡ length work32.old) × (length work64.new ≡ length work64.old) }
{
    kistovab::calls::kistovab_submit(
        state,
        fine,
        coarse,
        fine_energy,
        coarse_energy,
        bands,
        times,
        energies,
        values,
        clock_ms,
        work32,
        work64,
        snapshot,
    )
}

// Where there is no age, `age` is left as it is.
#[unsafe(no_mangle)]
pub extern "C" fn kistovab_support_age(state: &[u64], age: &mut f64) -> u32
    ensures value { result ≡ age_code (length state.now) (support_age (state_in state.now)) }
    ensures number { age.new ≡ age_after (length state.now) (support_age (state_in state.now)) age.old }
{
    kistovab::calls::kistovab_support_age(state, age)
}
