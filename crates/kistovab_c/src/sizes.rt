// How long the lent slices have to be. 0 where a count is over its limit: opening or submission
// refuses it too.
ghost use Rattle.std.specs.Prelude.{◌≡◌};
ghost use Rattle.engine_layout.specs.Layout.{snapshot_words, state_words};
ghost use Rattle.kistovab.specs.Sizes.{coarse_length, coarse_energy_length, fine_length, fine_energy_length, work32_length, work64_length};

#[unsafe(no_mangle)]
pub extern "C" fn kistovab_state_words() -> usize
    ensures { result ≡ state_words }
{
    kistovab::sizes::kistovab_state_words()
}

#[unsafe(no_mangle)]
pub extern "C" fn kistovab_snapshot_words() -> usize
    ensures { result ≡ snapshot_words }
{
    kistovab::sizes::kistovab_snapshot_words()
}

// Kept: here and below counts one by one, as the C interface has them; the header has these names.
#[unsafe(no_mangle)]
pub extern "C" fn kistovab_fine_length(frames: usize, bands: usize) -> usize
    ensures { result ≡ fine_length frames bands }
{
    kistovab::sizes::kistovab_fine_length(frames, bands)
}

#[unsafe(no_mangle)]
pub extern "C" fn kistovab_coarse_length(frames: usize, bands: usize) -> usize
    ensures { result ≡ coarse_length frames bands }
{
    kistovab::sizes::kistovab_coarse_length(frames, bands)
}

#[unsafe(no_mangle)]
pub extern "C" fn kistovab_fine_energy_length(frames: usize, bands: usize) -> usize
    ensures { result ≡ fine_energy_length frames bands }
{
    kistovab::sizes::kistovab_fine_energy_length(frames, bands)
}

#[unsafe(no_mangle)]
pub extern "C" fn kistovab_coarse_energy_length(frames: usize, bands: usize) -> usize
    ensures { result ≡ coarse_energy_length frames bands }
{
    kistovab::sizes::kistovab_coarse_energy_length(frames, bands)
}

#[unsafe(no_mangle)]
pub extern "C" fn kistovab_work32_length(frames: usize, bands: usize) -> usize
    ensures { result ≡ work32_length frames bands }
{
    kistovab::sizes::kistovab_work32_length(frames, bands)
}

#[unsafe(no_mangle)]
pub extern "C" fn kistovab_work64_length(
    frames: usize,
    bands: usize,
    reference_frames: usize,
) -> usize
    ensures { result ≡ work64_length frames bands reference_frames }
{
    kistovab::sizes::kistovab_work64_length(frames, bands, reference_frames)
}
