// A call on the host's guidance, by a caller.
ghost use Rattle.std.specs.Prelude.{◌≡◌};
ghost use Rattle.host.specs.Run as spec;

use guidance::plane::PlaneGuidance;
use host_answers::answer::RunAnswer;

#[unsafe(no_mangle)]
pub extern "C" fn nuthkolla_run(
    guidance: &mut PlaneGuidance,
    caller: u32,
    what: u32,
    bytes: &[u8],
) -> RunAnswer
    ensures { (guidance.new ≡ (spec.run_by guidance.old caller what bytes.now).guidance) × (result ≡ (spec.run_by guidance.old caller what bytes.now).answer) }
{
    host::run::nuthkolla_run(guidance, caller, what, bytes)
}
