// Records written for a host.
ghost use Rattle.std.specs.Prelude.{◌≡◌};
ghost use Rattle.host.specs.Writing as spec;

use call_numbers::CallNumbers;
use host_answers::place::Place;
use laws::config::PlaneGuidanceConfig;

#[unsafe(no_mangle)]
pub extern "C" fn nuthkolla_write_call(out: &mut [u8], at: usize, call: CallNumbers) -> Place
    ensures { (result ≡ spec.call_place call out.old at) × (out.new ≡ spec.call_buffer call out.old at) }
{
    host::writing::nuthkolla_write_call(out, at, call)
}

#[unsafe(no_mangle)]
pub extern "C" fn nuthkolla_write_config(
    out: &mut [u8],
    at: usize,
    config: PlaneGuidanceConfig,
) -> Place
    ensures { (result ≡ spec.config_place config out.old at) × (out.new ≡ spec.config_buffer config out.old at) }
{
    host::writing::nuthkolla_write_config(out, at, config)
}
