// Answers as numbers, for hosts that know no enum.
ghost use Rattle.std.specs.Prelude.{◌≡◌};
ghost use Rattle.arithmetic.specs.Constants.{n0};
ghost use Rattle.calls.specs.Calls.{as_reply};
ghost use Rattle.host_answers.specs.Answer as spec;

use calls::Reply;
use guidance::plane::{Answer, LateralLaw, VerticalLaw};
use laws::config::InvalidConfig;
use laws::types::Setpoint;
use refusals::Refusal;

// refusal: 0 or the refusal's number; field: of number 1, the failing field; setpoint: 0 none, 1 plane, 2 plane rate;
// lateral: 0 none, 1 track, 2 loiter, 3 idle; vertical: 0 none, 1 energy, 2 hold, 3 fallback; yaw is +0 in a plane setpoint;
// cross_track_m: of a waypoint the distance off its line, right positive, else +0; next: the place after the record, 0 where
// no record was read.
#[repr(C)]
#[derive(Clone, Copy, Default)]
pub struct RunAnswer {
    pub refusal: u32,
    pub field: u32,
    pub setpoint: u32,
    pub lateral: u32,
    pub vertical: u32,
    pub roll: f32,
    pub pitch: f32,
    pub yaw: f32,
    pub thrust: f32,
    pub cross_track_m: f32,
    pub next: usize,
}

// A configuration that is refused, with its failing field.
#[tactic(auto, unfolding(crate::specs::Answer::bare))]
pub fn of_invalid(invalid: InvalidConfig, next: usize) -> RunAnswer
    ensures { result ≡ spec.bare 1 invalid.field next }
{
    RunAnswer {
        // `Refusal` has all numbers but a configuration's.
        refusal: 1,
        field: invalid.field,
        next,
        ..RunAnswer::default()
    }
}

// A match, here and below: neither the law nor u32 is of this crate, so that no From can be written, and 0 stands for no law.
fn lateral_number(law: LateralLaw) -> u32
    ensures { result ≡ spec.lateral_number law }
{
    match law {
        LateralLaw::Track => 1,
        LateralLaw::Loiter => 2,
        LateralLaw::Idle => 3,
    }
}

fn vertical_number(law: VerticalLaw) -> u32
    ensures { result ≡ spec.vertical_number law }
{
    match law {
        VerticalLaw::Energy => 1,
        VerticalLaw::Hold => 2,
        VerticalLaw::Fallback => 3,
    }
}

// A setpoint's answer, without a waypoint's laws and distance.
fn of_setpoint(setpoint: Setpoint, next: usize) -> RunAnswer
    ensures { result ≡ spec.of_setpoint setpoint 0 0 n0 next }
{
    match setpoint {
        Setpoint::Plane {
            roll_rad,
            pitch_rad,
            thrust,
        } => RunAnswer {
            setpoint: 1,
            roll: roll_rad,
            pitch: pitch_rad,
            thrust,
            next,
            ..RunAnswer::default()
        },
        Setpoint::PlaneRate {
            roll_radps,
            pitch_radps,
            yaw_radps,
            thrust,
        } => RunAnswer {
            setpoint: 2,
            roll: roll_radps,
            pitch: pitch_radps,
            yaw: yaw_radps,
            thrust,
            next,
            ..RunAnswer::default()
        },
    }
}

// No From here and in `of_invalid` and `of_reply`: the place after the record is no part of what they answer, so that a From would
// take a pair, made at each call.
#[tactic(auto, unfolding(crate::specs::Answer::bare))]
pub fn of_answer(answer: Result<Answer, Refusal>, next: usize) -> RunAnswer
    ensures { result ≡ spec.of_answer answer next }
{
    match answer {
        Err(why) => RunAnswer {
            refusal: why.number(),
            next,
            ..RunAnswer::default()
        },
        Ok(Answer::Commanded(setpoint)) => of_setpoint(setpoint, next),
        Ok(Answer::Waypoint(w)) => RunAnswer {
            lateral: lateral_number(w.laws.lateral),
            vertical: vertical_number(w.laws.vertical),
            cross_track_m: w.cross_track_m,
            ..of_setpoint(w.setpoint, next)
        },
    }
}

#[tactic(auto, unfolding(crate::specs::Answer::bare))]
pub fn of_reply(reply: Reply, next: usize) -> RunAnswer
    ensures { result ≡ spec.of_reply (as_reply reply) next }
{
    match reply {
        Some(answer) => of_answer(answer, next),
        None => RunAnswer {
            next,
            ..RunAnswer::default()
        },
    }
}
