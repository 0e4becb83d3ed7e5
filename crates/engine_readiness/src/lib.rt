// Readiness: why a window cannot be searched.
#![tactic(auto)]

ghost use Rattle.std.specs.Prelude.{IfNone, ◌<◌, ◌≤◌, Float, length, count_by, fold, ◌≡◌};
ghost use Rattle.std.specs.Float.Ieee.{le};
ghost use Rattle.numbers_spec.specs.Arithmetic.{◌⊕◌, ◌⊘◌, zero⁺};
ghost use Rattle.numbers_spec.specs.Exponential.{ten_to};
ghost use Rattle.engine_spec.specs.Thresholds.{ten};
ghost use Rattle.engine_spec.specs.Readiness.{active_fraction, average_energy, mean_power, minimum_duration, readiness};

use engine_spec::lent::Window;
use engine_spec::thresholds::TEN;
use engine_spec::types::{Configuration, Settings, WithholdReason};
use matcher_bands::timeline::accepts_timeline;
use numbers::exponential::ten_to;
use numbers::float::{at_most, real};
use numbers::logarithm::log10;

// How many energies reach the threshold.
fn count_active(energies: &[f64], threshold: f64) -> usize
    ensures { result ≡ count_by (le threshold) energies.now }
{
    energies.iter().filter(|e| **e >= threshold).count()
}

// The part of the frames that are active.
// Kept: the fact, see `Window`.
pub fn active_fraction(configuration: Configuration, window: &Window<'_>) -> f64
    requires { length window.now.times ≤ length window.now.energies }
    ensures { result ≡ active_fraction configuration window.now }
{
    let n = window.times.len();
    let threshold = configuration.minimum_active_frame_energy_dbfs;
    real(count_active(&window.energies[..n], threshold)) / real(n)
}

// The power 10^(energy / 10).
fn power(energy: f64) -> f64
    ensures { result ≡ ten_to (energy ⊘ ten) }
{
    ten_to(energy / TEN)
}

// The powers, added in order.
fn power_sum(energies: &[f64]) -> f64
    ensures { result ≡ fold (λ (s e : Float). s ⊕ ten_to (e ⊘ ten)) zero⁺ energies.now }
{
    energies.iter().fold(0.0, |sum, e| sum + power(*e))
}

// The mean power of the frames.
fn mean_power(window: &Window<'_>) -> f64
    requires { length window.now.times ≤ length window.now.energies }
    ensures { result ≡ mean_power window.now }
{
    let n = window.times.len();
    power_sum(&window.energies[..n]) / real(n)
}

// The mean power as an energy.
#[tactic(auto, unfolding(engine_spec::specs::Readiness::average_energy))]
fn average_energy(window: &Window<'_>) -> f64
    requires { length window.now.times ≤ length window.now.energies }
    ensures { result ≡ average_energy window.now }
{
    let mean = mean_power(window);
    if mean > 0.0 {
        TEN * log10(mean)
    } else {
        f64::NEG_INFINITY
    }
}

fn minimum_duration(configuration: Configuration, hop: f64, confirmed: bool) -> f64
    ensures { result ≡ minimum_duration configuration hop confirmed }
{
    if confirmed {
        at_most(
            configuration.minimum_readiness_duration_ms,
            configuration.tracking_query_duration_ms - hop,
        )
    } else {
        configuration.minimum_readiness_duration_ms
    }
}

// Why the window cannot be searched, if it cannot.
#[tactic(auto, unfolding(engine_spec::specs::Readiness::readiness))]
pub fn readiness(
    configuration: Configuration,
    settings: Settings,
    confirmed: bool,
    window: &Window<'_>,
) -> Option<WithholdReason>
    requires heard { 0 < length window.now.times }
    requires measured { length window.now.times ≤ length window.now.energies }
    ensures value { result ≡ readiness configuration settings confirmed window.now }
    ensures indexed { IfNone result (0 < settings.reference_frames) }
{
    let n = window.times.len();
    let bands = settings.reference_bands as usize;
    if settings.reference_frames == 0 {
        return Some(WithholdReason::IndexUnavailable);
    }
    let least = minimum_duration(configuration, settings.hop_ms, confirmed);
    if window.times[n - 1] - window.times[0] < least {
        return Some(WithholdReason::InsufficientDuration);
    }
    if !accepts_timeline(bands, settings.hop_ms, window.bands, window.times) {
        return Some(WithholdReason::LostSignal);
    }
    if average_energy(window) < configuration.minimum_average_energy_dbfs {
        return Some(WithholdReason::InsufficientEnergy);
    }
    if active_fraction(configuration, window) < configuration.minimum_active_frame_fraction {
        return Some(WithholdReason::InsufficientActiveFrames);
    }
    None
}
