// A configuration's record read for a host.
ghost use Rattle.std.specs.Prelude.{◌≡◌};
ghost use Rattle.host.specs.Reading as spec;

use host::reading::ConfigRead;

#[unsafe(no_mangle)]
pub extern "C" fn nuthkolla_read_config(bytes: &[u8], at: usize) -> ConfigRead
    ensures { result ≡ spec.config_read bytes.now at }
{
    host::reading::nuthkolla_read_config(bytes, at)
}
