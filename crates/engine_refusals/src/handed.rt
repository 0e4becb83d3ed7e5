// The order of refusals.
ghost use Rattle.std.specs.Prelude.{◌^◌, ◌<◌, ◌≤◌, length, ◌≡◌};
ghost use Rattle.std.specs.Result.{result_err};
ghost use Rattle.engine_spec.specs.Refusals.{handed_refusal, index_fits, lent_refusal, opening_refusal, submission_refusal, valid_window, window_refusal, work_fits};
ghost use Rattle.matcher_spec.specs.Limits.{window_most, bands_most};

use crate::ranges::{are_near, are_near_or_not_finite, are_valid_energies, is_hop};
use crate::states::{are_counts, is_valid_configuration, is_valid_engine};
use engine_spec::lent::{Submission, Window};
use engine_spec::types::{Configuration, Engine, Refusal, Settings};
use matcher_bands::timeline::are_valid;
use matcher_spec::lent::{Features, Index};
use matcher_spec::limits::{BANDS_MOST, WINDOW_MOST};
use numbers::float::is_finite;

// 6: the index holds a row of frames and one of a quarter of them for each band, with an energy more
// than values in a row.
#[tactic(auto, unfolding(engine_spec::specs::Refusals::index_fits), using(crate::proofs::Products::few))]
fn index_fits(frames: usize, bands: usize, index: &Index<'_>) -> bool
    requires few_frames { frames < 2 ^ 16 }
    requires few_bands { bands < 2 ^ 16 }
    ensures { result ≡ index_fits frames bands index.now }
{
    bands * frames <= index.fine.len()
        && bands * (frames / 4) <= index.coarse.len()
        && bands * (frames + 1) <= index.fine_energy.len()
        && bands * (frames / 4 + 1) <= index.coarse_energy.len()
}

// 1 to 6, in document 01's order. Sizes are tested before any product of them.
#[tactic(auto, unfolding(engine_spec::specs::Refusals::opening_refusal))]
pub fn check_opening(
    configuration: Configuration,
    hop: f64,
    reference: &Features<'_>,
    index: &Index<'_>,
) -> Result<(), Refusal>
    ensures { result_err result ≡ opening_refusal configuration hop reference.now index.now }
{
    let n = reference.times.len();
    let bands = reference.bands;
    if !is_valid_configuration(configuration) {
        return Err(Refusal::InvalidConfiguration);
    }
    if !is_hop(hop) {
        return Err(Refusal::HopOutOfRange);
    }
    if !are_counts(n, bands) {
        return Err(Refusal::ReferenceTooLarge);
    }
    if reference.values.len() != bands * n {
        return Err(Refusal::ReferenceMiscounted);
    }
    if !are_near_or_not_finite(reference.times) {
        return Err(Refusal::ReferenceTimeTooFar);
    }
    if !index_fits(n, bands, index) {
        return Err(Refusal::IndexTooShort);
    }
    Ok(())
}

// 6 and 8: the index and the clock.
fn check_lent(settings: Settings, submission: &Submission<'_>) -> Result<(), Refusal>
    ensures { result_err result ≡ lent_refusal settings submission.now.index submission.now.clock }
{
    let frames = settings.reference_frames as usize;
    let bands = settings.reference_bands as usize;
    if !index_fits(frames, bands, submission.index) {
        return Err(Refusal::IndexTooShort);
    }
    if !is_finite(submission.clock.0) {
        return Err(Refusal::ClockNotFinite);
    }
    Ok(())
}

// 11: bands, lengths that agree, and values that are finite and not negative.
#[tactic(auto, unfolding(engine_spec::specs::Refusals::valid_window), using(crate::proofs::Products::few))]
fn is_valid_window(window: &Window<'_>) -> bool
    requires few_bands { window.now.bands ≤ bands_most }
    requires few_frames { length window.now.times ≤ window_most }
    ensures { result ≡ valid_window window.now }
{
    let n = window.times.len();
    0 < window.bands
        && window.energies.len() == n
        && window.values.len() == window.bands * n
        && are_valid(window.values)
}

// 9 to 12: a window alone. Sizes are tested before any product of them.
#[tactic(auto, unfolding(engine_spec::specs::Refusals::window_refusal))]
pub fn check_window(window: &Window<'_>) -> Result<(), Refusal>
    ensures { result_err result ≡ window_refusal window.now }
{
    let n = window.times.len();
    if n == 0 {
        return Err(Refusal::NoFrames);
    }
    if WINDOW_MOST < n || BANDS_MOST < window.bands {
        return Err(Refusal::WindowTooLarge);
    }
    if !is_valid_window(window) {
        return Err(Refusal::WindowInvalid);
    }
    if !are_near(window.times) || !are_valid_energies(window.energies) {
        return Err(Refusal::WindowTimeOutOfRange);
    }
    Ok(())
}

// 13: by the window's bands and frames and the state's frames.
#[tactic(auto, unfolding(engine_spec::specs::Refusals::work_fits), using(crate::proofs::Products::few))]
fn work_fits(settings: Settings, submission: &Submission<'_>) -> bool
    requires few_bands { submission.now.window.bands ≤ bands_most }
    requires few_frames { length submission.now.window.times ≤ window_most }
    ensures { result ≡ work_fits submission.now.window.bands (length submission.now.window.times) settings.reference_frames submission.now.room32 submission.now.room64 }
{
    let window = submission.window;
    let bands = window.bands;
    let frames = window.times.len();
    2 * (bands * frames) <= submission.room32
        && 3 * (bands * (frames + 1)) + settings.reference_frames as usize <= submission.room64
}

// 6 and 8 to 13: what may be refused of a submission to a state with these settings.
#[tactic(auto, unfolding(engine_spec::specs::Refusals::handed_refusal))]
fn check_handed(settings: Settings, submission: &Submission<'_>) -> Result<(), Refusal>
    ensures { result_err result ≡ handed_refusal settings submission.now }
{
    check_lent(settings, submission)?;
    check_window(submission.window)?;
    if !work_fits(settings, submission) {
        return Err(Refusal::WorkTooShort);
    }
    Ok(())
}

// 7 first: what the state holds.
#[tactic(auto, unfolding(engine_spec::specs::Refusals::submission_refusal))]
pub fn check_submission(engine: Engine, submission: &Submission<'_>) -> Result<(), Refusal>
    ensures { result_err result ≡ submission_refusal engine submission.now }
{
    if !is_valid_engine(engine) {
        return Err(Refusal::StateOutOfRange);
    }
    check_handed(engine.settings, submission)
}
