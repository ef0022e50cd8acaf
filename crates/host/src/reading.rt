// A configuration's record read for a host. Calls are read by `nuthkolla_run`.
ghost use Rattle.std.specs.Prelude.{◌≡◌};
ghost use Rattle.host.specs.Reading as spec;

use laws::config::PlaneGuidanceConfig;
use records::config::read_config;

// For C: a configuration that was read; the defaults where it was refused. One function answers it: a match there is as plain as a From.
#[repr(C)]
#[derive(Clone, Copy)]
pub struct ConfigRead {
    pub refusal: u32,
    pub next: usize,
    pub config: PlaneGuidanceConfig,
}

// Reads a configuration's record at a place, without judging its numbers.
#[tactic(auto, unfolding(crate::specs::Reading::config_read))]
pub fn nuthkolla_read_config(bytes: &[u8], at: usize) -> ConfigRead
    ensures { result ≡ spec.config_read bytes.now at }
{
    match read_config(bytes, at) {
        Err(why) => ConfigRead {
            refusal: why.number(),
            next: 0,
            config: PlaneGuidanceConfig::default(),
        },
        Ok(read) => ConfigRead {
            refusal: 0,
            next: read.next,
            config: read.config,
        },
    }
}
