// A record's call, carried out on a guidance.
#![tactic(auto)]

ghost use Rattle.std.specs.Prelude.{◌≡◌};
ghost use Rattle.claims.specs.Calls as spec;
ghost use Rattle.calls.specs.Calls as is;

use guidance::plane::{Answer, GuideCall, PlaneGuidance};
use laws::types::{ControlInput, FlightRegime, VehicleState};
use records::call::Call;
use refusals::Refusal;

// What a guide call answers; a prime call answers nothing.
pub type Reply = Option<Result<Answer, Refusal>>;

// The guidance after a call, and what the caller gets; no Result, as `Guided`.
#[derive(Clone, Copy)]
pub struct Performed {
    pub guidance: PlaneGuidance,
    pub reply: Reply,
}

// A command other than a waypoint, which reads neither sensors nor cap.
fn unsensed(dt: f32, regime: FlightRegime, command: ControlInput) -> GuideCall<ControlInput>
    ensures { is.guide_of result ≡ spec.guide dt regime command is.unsensed is.no_cap }
{
    GuideCall {
        dt,
        regime,
        command,
        state: VehicleState::default(),
        cap: None,
    }
}

// The guide call that a record's call is; a prime is none. No From: neither type is of this crate.
fn guide_call(call: Call) -> Option<GuideCall<ControlInput>>
    ensures { is.as_call result ≡ is.call_of call }
{
    match call {
        Call::Prime => None,
        Call::Attitude {
            regime,
            dt,
            command,
        } => Some(unsensed(dt, regime, ControlInput::Attitude(command))),
        Call::Rate {
            regime,
            dt,
            command,
        } => Some(unsensed(dt, regime, ControlInput::Rate(command))),
        Call::Waypoint {
            regime,
            dt,
            command,
            state,
            cap,
        } => Some(GuideCall {
            dt,
            regime,
            command: ControlInput::Waypoint(command),
            state,
            cap,
        }),
        Call::AbsoluteAttitude {
            regime,
            dt,
            command,
        } => Some(unsensed(dt, regime, ControlInput::AbsoluteAttitude(command))),
        Call::Land { regime, dt } => Some(unsensed(dt, regime, ControlInput::Land)),
        Call::AbsoluteRate {
            regime,
            dt,
            command,
        } => Some(unsensed(dt, regime, ControlInput::AbsoluteRate(command))),
    }
}

#[tactic(auto, unfolding(claims::specs::Calls::perform))]
fn guided(g: PlaneGuidance, k: GuideCall<ControlInput>) -> Performed
    ensures { is.as_outcome result ≡ spec.perform g (is.guide_of k) }
{
    let done = g.guide_capped(k.dt, k.regime, k.command, k.state, k.cap);
    Performed {
        guidance: done.guidance,
        reply: Some(done.answer),
    }
}

#[tactic(auto, unfolding(claims::specs::Calls::perform))]
pub fn perform(g: PlaneGuidance, call: Call) -> Performed
    ensures { is.as_outcome result ≡ spec.perform g (is.call_of call) }
{
    match guide_call(call) {
        None => Performed {
            guidance: g.prime(),
            reply: None,
        },
        Some(k) => guided(g, k),
    }
}
