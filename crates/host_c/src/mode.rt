// The reports of a guidance, the mode and the stall guard, by a caller.
ghost use Rattle.std.specs.Prelude.{◌≡◌};
ghost use Rattle.host.specs.Mode as spec;

use guidance::plane::PlaneGuidance;
use host::mode::Report;

#[unsafe(no_mangle)]
pub extern "C" fn nuthkolla_report(guidance: PlaneGuidance, caller: u32, what: u32) -> Report
    ensures { result ≡ spec.report_by guidance caller what }
{
    host::mode::nuthkolla_report(guidance, caller, what)
}
