// One step of the drawn path: the guidance's answer, and a simple plane that banks and pitches at once as it says.
ghost use Rattle.std.specs.Prelude.{◌≡◌};
ghost use Rattle.path.specs.declared.model.Stop.TheVariants as stop;
ghost use Rattle.path.specs.Model as spec;

use arithmetic::order::clamp_ordered;
use arithmetic::trigonometry::{FRAC_PI_2, cosine, sine};
use arithmetic::vector::{Vec2, norm};
pub use guidance::plane::WaypointCall;
use guidance::plane::{Answer, PlaneGuidance};
use laws::types::{GRAVITY, Setpoint, Vec3, VehicleState, north_east};
use refusals::Refusal;

// The guidance, and what the sensors of the model's plane would report.
#[derive(Clone, Copy)]
pub struct Model {
    pub guidance: PlaneGuidance,
    pub state: VehicleState,
}

// Why a path stops: the guidance refuses the step, or a number of the position or velocity after it is not finite.
#[derive(Clone, Copy, PartialEq, Eq)]
pub enum Stop {
    Refused(Refusal),
    NotFinite,
}

impl From<Refusal> for Stop {
    ghost from_gives = { λ why s. s ≡ stop.Refused why };

    fn from(refusal: Refusal) -> Stop {
        Stop::Refused(refusal)
    }
}

impl Stop {
    // The refusal's number, and 0 for a number that is not finite. No From, as for `Refusal::number`.
    pub fn number(self) -> u32
        ensures { result ≡ spec.stop_number self }
    {
        match self {
            Stop::Refused(why) => why.number(),
            Stop::NotFinite => 0,
        }
    }
}

// No turn below 1.0 m/s.
#[tactic(auto, unfolding(crate::specs::Model::turn_rate))]
fn turn_rate(roll_rad: f32, speed_mps: f32) -> f32
    ensures { result ≡ spec.turn_rate roll_rad speed_mps }
{
    if speed_mps < 1.0 {
        0.0
    } else {
        GRAVITY * sine(roll_rad) / cosine(roll_rad) / speed_mps
    }
}

#[tactic(auto, unfolding(crate::specs::Model::turn_in_step))]
fn turn_in_step(roll_rad: f32, speed_mps: f32, dt: f32) -> f32
    ensures { result ≡ spec.turn_in_step roll_rad speed_mps dt }
{
    clamp_ordered(turn_rate(roll_rad, speed_mps) * dt, -FRAC_PI_2, FRAC_PI_2)
}

#[tactic(auto, unfolding(crate::specs::Model::turned_right))]
fn turned_right(velocity_mps: Vec3, turn_rad: f32) -> Vec2
    ensures { result ≡ spec.turned_right velocity_mps turn_rad }
{
    let c = cosine(turn_rad);
    let s = sine(turn_rad);
    Vec2 {
        x: velocity_mps.x * c - velocity_mps.y * s,
        y: velocity_mps.x * s + velocity_mps.y * c,
    }
}

// The plane after a step that the guidance answered with this roll and pitch.
#[tactic(auto, unfolding(crate::specs::Model::flown))]
fn flown(state: VehicleState, dt: f32, roll_rad: f32, pitch_rad: f32) -> VehicleState
    ensures { result ≡ spec.flown state dt roll_rad pitch_rad }
{
    let position = state.position_m;
    let velocity = state.velocity_mps;
    let speed = norm(north_east(velocity));
    let ground = turned_right(velocity, turn_in_step(roll_rad, speed, dt));
    let climb = state.airspeed_mps.unwrap_or(speed) * sine(pitch_rad);
    VehicleState {
        position_m: Vec3 {
            x: position.x + ground.x * dt,
            y: position.y + ground.y * dt,
            z: position.z + climb * dt,
        },
        velocity_mps: Vec3 {
            x: ground.x,
            y: ground.y,
            z: climb,
        },
        roll_rad,
        ..state
    }
}

// Not by laws' `all_finite`, which is of a Vec2: three tests are plainer than a call and a test.
#[tactic(auto, unfolding(crate::specs::Model::all_finite))]
fn all_finite(v: Vec3) -> bool
    ensures { result ≡ spec.all_finite v }
{
    v.x.is_finite() & v.y.is_finite() & v.z.is_finite()
}

// The step that leads to this state; `NotFinite` where a number of its position or velocity is not finite.
#[tactic(auto, unfolding(crate::specs::Model::settled))]
fn settled(guidance: PlaneGuidance, state: VehicleState) -> Result<Model, Stop>
    ensures { result ≡ spec.settled guidance state }
{
    if all_finite(state.position_m) & all_finite(state.velocity_mps) {
        Ok(Model { guidance, state })
    } else {
        Err(Stop::NotFinite)
    }
}

// A waypoint answers no rates.
fn by_setpoint(
    state: VehicleState,
    dt: f32,
    guidance: PlaneGuidance,
    setpoint: Setpoint,
) -> Result<Model, Stop>
    ensures { result ≡ spec.by_setpoint state dt guidance setpoint }
{
    match setpoint {
        Setpoint::Plane {
            roll_rad,
            pitch_rad,
            ..
        } => settled(guidance, flown(state, dt, roll_rad, pitch_rad)),
        Setpoint::PlaneRate { .. } => Err(Stop::NotFinite),
    }
}

// One step: the call's waypoint, time step, regime and cap at the model's state.
#[tactic(auto, unfolding(crate::specs::Model::step))]
pub fn step(m: Model, call: WaypointCall) -> Result<Model, Stop>
    ensures { result ≡ spec.step call m }
{
    let o = m.guidance.guide_step(WaypointCall {
        state: m.state,
        ..call
    });
    let setpoint = match o.answer? {
        Answer::Commanded(setpoint) => setpoint,
        Answer::Waypoint(w) => w.setpoint,
    };
    by_setpoint(m.state, call.dt, o.guidance, setpoint)
}
