// The path into a lent buffer (no heap), three numbers a point.
ghost use Rattle.std.specs.Prelude.{◌≡◌, ◌++◌, ◌≤◌, ◌*◌, length, drop};
ghost use Rattle.path.specs.Model as model_spec;
ghost use Rattle.path.specs.Path as spec;

use crate::model::{Model, Stop, WaypointCall, step};
use guidance::plane::PlaneGuidance;
use laws::types::Vec3;
use refusals::Refusal;

const MOST_STEPS: usize = 600;

// How many points were drawn; and, if the path stopped before its last step, where and why.
#[derive(Clone, Copy)]
pub struct Drawn {
    pub drawn: usize,
    pub stopped: Option<Stopped>,
}

// The step at which a path stopped, counted from 1: one past those drawn, said as C and the page have it.
#[derive(Clone, Copy)]
pub struct Stopped {
    pub step: usize,
    pub why: Stop,
}

fn put_point(part: &mut [f32], p: Vec3)
    requires { 3 ≤ length part.old }
    ensures { part.new ≡ spec.numbers_of p ++ drop 3 part.old }
{
    part[0] = p.x;
    part[1] = p.y;
    part[2] = p.z;
}

// One step in place, out of line, so that a path stays within the stack that include/nuthkolla.h names: in the loop's own line what no
// step changes would be worked out before the loop and kept on the stack.
#[inline(never)]
fn advance(m: &mut Model, call: &WaypointCall) -> Result<(), Stop>
    ensures moved { m.new ≡ model_spec.moved m.old (model_spec.step call.now m.old) }
    ensures stopped { result ≡ model_spec.whether_moved (model_spec.step call.now m.old) }
{
    let next = step(*m, *call)?;
    m.guidance.take_over(next.guidance);
    m.state = next.state;
    Ok(())
}

// By index: after `as_chunks_mut` or `chunks_exact_mut` std says nothing of what the slice ends as, so `out.new` would not be proved.
fn draw_steps(g: PlaneGuidance, call: WaypointCall, steps: usize, out: &mut [f32]) -> Drawn
    requires { (steps ≤ 600) × (3 * steps ≤ length out.old) }
    ensures { (result ≡ spec.told (spec.path steps call (spec.start g call))) × (out.new ≡ spec.put (spec.path steps call (spec.start g call)).points out.old) }
{
    let mut m = Model {
        guidance: g,
        state: call.state,
    };
    for n in 0..steps {
        match advance(&mut m, &call) {
            Ok(()) => put_point(&mut out[3 * n..], m.state.position_m),
            Err(why) => {
                return Drawn {
                    drawn: n,
                    stopped: Some(Stopped { step: n + 1, why }),
                };
            }
        }
    }
    Drawn {
        drawn: steps,
        stopped: None,
    }
}

// The path of a waypoint call, of up to 600 steps. The guidance is the caller's own, by value, and stays as it is.
#[tactic(auto, unfolding(crate::specs::Path::answer, crate::specs::Path::buffer))]
pub fn draw_path(
    g: PlaneGuidance,
    call: WaypointCall,
    steps: usize,
    out: &mut [f32],
) -> Result<Drawn, Refusal>
    ensures { (result ≡ spec.answer g call steps (length out.old)) × (out.new ≡ spec.buffer g call steps out.old) }
{
    if (steps == 0) | (steps > MOST_STEPS) {
        return Err(Refusal::StepCount);
    }
    if out.len() < 3 * steps {
        return Err(Refusal::TooLittleRoom);
    }
    Ok(draw_steps(g, call, steps, out))
}
