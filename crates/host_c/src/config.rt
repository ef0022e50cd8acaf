// The configuration of defaults, and the judgement of one.
ghost use Rattle.std.specs.Prelude.{◌≡◌};
ghost use Rattle.laws.specs.Config as settings;

use laws::config::PlaneGuidanceConfig;

#[unsafe(no_mangle)]
pub extern "C" fn nuthkolla_default_config() -> PlaneGuidanceConfig
    ensures { result ≡ settings.default }
{
    host::config::nuthkolla_default_config()
}

#[unsafe(no_mangle)]
pub extern "C" fn nuthkolla_validate(config: PlaneGuidanceConfig) -> u32
    ensures { result ≡ settings.validate config }
{
    host::config::nuthkolla_validate(config)
}
