// The configuration of defaults, and the judgement of one.
ghost use Rattle.std.specs.Prelude.{◌≡◌};
ghost use Rattle.laws.specs.Config as settings;

use laws::config::{PlaneGuidanceConfig, validate};

pub fn nuthkolla_default_config() -> PlaneGuidanceConfig
    ensures { result ≡ settings.default }
{
    PlaneGuidanceConfig::default()
}

// For C: 0, or the number of the first failing field.
pub fn nuthkolla_validate(config: PlaneGuidanceConfig) -> u32
    ensures { result ≡ settings.validate config }
{
    match validate(config) {
        Ok(()) => 0,
        Err(invalid) => invalid.field,
    }
}
