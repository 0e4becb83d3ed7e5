// The configuration that a unit starts with (types.rs, `Configuration::default`).
ghost use Rattle.std.specs.Prelude.{◌≡◌};
ghost use Rattle.engine_spec.specs.Opening.{default_configuration};

use engine_spec::types::Configuration;

// Durations of 2,500 and 2,000, energies of -70 and -62, a fraction of 0.35.
pub fn default_configuration() -> Configuration
    ensures { result ≡ default_configuration }
{
    Configuration {
        minimum_readiness_duration_ms: 2500.0,
        tracking_query_duration_ms: 2000.0,
        minimum_active_frame_energy_dbfs: -70.0,
        minimum_average_energy_dbfs: -62.0,
        minimum_active_frame_fraction: 0.35,
    }
}
