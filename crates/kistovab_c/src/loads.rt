// A load for test benches.
ghost use Rattle.std.specs.Prelude.{◌≡◌};
ghost use Rattle.engine_spec.specs.Lent.{window};
ghost use Rattle.workload_spec.specs.Fill.{filling_number, load_refusal, slices_after};

// Fills a reference or a window from a seed, wholly, or refuses and writes nothing.
// Kept: flat slices, as the C interface lends them; the header has these names.
#[unsafe(no_mangle)]
pub extern "C" fn kistovab_fill_load(
    seed: u64,
    hop_ms: f64,
    bands: usize,
    times: &mut [f64],
    energies: &mut [f64],
    values: &mut [f32],
) -> u32
    ensures value { result ≡ filling_number (load_refusal seed hop_ms (window bands times.old energies.old values.old)) }
    ensures slices { window bands times.new energies.new values.new ≡ slices_after seed hop_ms (window bands times.old energies.old values.old) }
{
    kistovab::loads::kistovab_fill_load(seed, hop_ms, bands, times, energies, values)
}
