// How long the lent slices have to be. 0 where a count is over its limit: opening or submission
// refuses it too.
ghost use Rattle.std.specs.Prelude.{◌≡◌, ◌&&◌, leb};
ghost use Rattle.engine_layout.specs.Layout.{snapshot_words, state_words};
ghost use Rattle.kistovab.specs.Sizes.{coarse_length, coarse_energy_length, fine_length, fine_energy_length, work32_length, work64_length};
ghost use Rattle.matcher_spec.specs.Limits.{bands_most, window_most};

use engine_refusals::states::are_counts;
use engine_words::snapshots::SNAPSHOT_WORDS;
use engine_words::states::STATE_WORDS;
use matcher_spec::limits::{BANDS_MOST, FRAMES_MOST, WINDOW_MOST};

pub fn kistovab_state_words() -> usize
    ensures { result ≡ state_words }
{
    STATE_WORDS
}

pub fn kistovab_snapshot_words() -> usize
    ensures { result ≡ snapshot_words }
{
    SNAPSHOT_WORDS
}

// Kept: here and below counts one by one, as the C interface has them, and alike in shape: each is a
// name of the header, with a definition of its own.
#[tactic(auto, unfolding(crate::specs::Sizes::fine_length), using(engine_refusals::proofs::Products::few))]
pub fn kistovab_fine_length(frames: usize, bands: usize) -> usize
    ensures { result ≡ fine_length frames bands }
{
    if are_counts(frames, bands) {
        bands * frames
    } else {
        0
    }
}

#[tactic(auto, unfolding(crate::specs::Sizes::coarse_length), using(engine_refusals::proofs::Products::few))]
pub fn kistovab_coarse_length(frames: usize, bands: usize) -> usize
    ensures { result ≡ coarse_length frames bands }
{
    if are_counts(frames, bands) {
        bands * (frames / 4)
    } else {
        0
    }
}

#[tactic(auto, unfolding(crate::specs::Sizes::fine_energy_length), using(engine_refusals::proofs::Products::few))]
pub fn kistovab_fine_energy_length(frames: usize, bands: usize) -> usize
    ensures { result ≡ fine_energy_length frames bands }
{
    if are_counts(frames, bands) {
        bands * (frames + 1)
    } else {
        0
    }
}

#[tactic(auto, unfolding(crate::specs::Sizes::coarse_energy_length), using(engine_refusals::proofs::Products::few))]
pub fn kistovab_coarse_energy_length(frames: usize, bands: usize) -> usize
    ensures { result ≡ coarse_energy_length frames bands }
{
    if are_counts(frames, bands) {
        bands * (frames / 4 + 1)
    } else {
        0
    }
}

// A window's size.
fn are_window_counts(frames: usize, bands: usize) -> bool
    ensures { result ≡ leb frames window_most && leb bands bands_most }
{
    frames <= WINDOW_MOST && bands <= BANDS_MOST
}

#[tactic(auto, unfolding(crate::specs::Sizes::work32_length), using(engine_refusals::proofs::Products::few))]
pub fn kistovab_work32_length(frames: usize, bands: usize) -> usize
    ensures { result ≡ work32_length frames bands }
{
    if are_window_counts(frames, bands) {
        2 * (bands * frames)
    } else {
        0
    }
}

#[tactic(auto, unfolding(crate::specs::Sizes::work64_length), using(engine_refusals::proofs::Products::few))]
pub fn kistovab_work64_length(frames: usize, bands: usize, reference_frames: usize) -> usize
    ensures { result ≡ work64_length frames bands reference_frames }
{
    if are_window_counts(frames, bands) && reference_frames <= FRAMES_MOST {
        3 * (bands * (frames + 1)) + reference_frames
    } else {
        0
    }
}
