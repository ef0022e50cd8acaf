// What C calls of `host_path`, under its name and clause: an object of its own in the archive.
#![tactic(auto)]

ghost use Rattle.std.specs.Prelude.{◌≡◌, length};
ghost use Rattle.host_path.specs.Draw as spec;

use call_numbers::CallNumbers;
use guidance::plane::PlaneGuidance;
use host_path::Drawn;

#[unsafe(no_mangle)]
pub extern "C" fn nuthkolla_draw_path(
    guidance: PlaneGuidance,
    call: CallNumbers,
    steps: usize,
    out: &mut [f32],
) -> Drawn
    ensures { (result ≡ spec.path_answer guidance call steps (length out.old)) × (out.new ≡ spec.path_buffer guidance call steps out.old) }
{
    host_path::nuthkolla_draw_path(guidance, call, steps, out)
}
