// The turn to come, drawn for a host. The guidance comes by value: it is not changed.
// Whoever draws acts as the skipper (document 02, K9): there is no caller to judge.
// A crate and so an object of its own: in one with `nuthkolla_run` the guidance would be called from two places, and neither inlined.
#![tactic(auto)]

ghost use Rattle.std.specs.Prelude.{◌≡◌, length};
ghost use Rattle.host_path.specs.Draw as spec;

use call_numbers::{CallNumbers, waypoint_call_of};
use guidance::plane::PlaneGuidance;
use laws::types::FlightRegime;
use path::draw::{Drawn as Path, draw_path};
use records::call::Kind;
use refusals::Refusal;

// For C. refusal: 0, or the refusal's number; drawn: how many points; stopped: 0, or the step at which the path stopped, counted from 1;
// reason: that step's refusal, 0 for a number that is not finite.
#[repr(C)]
#[derive(Clone, Copy, Default)]
pub struct Drawn {
    pub refusal: u32,
    pub reason: u32,
    pub drawn: usize,
    pub stopped: usize,
}

fn refused(why: Refusal) -> Drawn
    ensures { result ≡ spec.refused why }
{
    Drawn {
        refusal: why.number(),
        ..Drawn::default()
    }
}

impl From<Result<Path, Refusal>> for Drawn {
    ghost from_gives = { λ answer drawn. drawn ≡ spec.drawn_of answer };

    fn from(answer: Result<Path, Refusal>) -> Drawn {
        let path = match answer {
            Err(why) => return refused(why),
            Ok(path) => path,
        };
        let drawn = Drawn {
            drawn: path.drawn,
            ..Drawn::default()
        };
        match path.stopped {
            None => drawn,
            Some(stopped) => Drawn {
                reason: stopped.why.number(),
                stopped: stopped.step,
                ..drawn
            },
        }
    }
}

// Number 255 for a kind other than a waypoint, 7 for a regime above 1, then 12 and 8.
#[tactic(auto, unfolding(crate::specs::Draw::path_answer, crate::specs::Draw::path_buffer))]
pub fn nuthkolla_draw_path(
    guidance: PlaneGuidance,
    call: CallNumbers,
    steps: usize,
    out: &mut [f32],
) -> Drawn
    ensures { (result ≡ spec.path_answer guidance call steps (length out.old)) × (out.new ≡ spec.path_buffer guidance call steps out.old) }
{
    let k = waypoint_call_of(call);
    if Kind::try_from(call.kind) != Ok(Kind::Waypoint) {
        return refused(Refusal::UnknownRequest);
    }
    if FlightRegime::try_from(call.regime).is_err() {
        return refused(Refusal::UnknownKind);
    }
    draw_path(guidance, k, steps, out).into()
}
