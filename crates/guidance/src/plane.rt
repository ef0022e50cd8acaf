// A guidance, and what its calls answer: plane.rs.
ghost use Rattle.std.specs.Prelude.{◌≡◌};

use laws::config::PlaneGuidanceConfig;
use laws::navigation::PiLoop;
use laws::tecs::Tecs;
use laws::types::{FlightRegime, Setpoint, VehicleState, WaypointCommand};
use refusals::Refusal;

// Stored words, 0 or not 0, stay numbers in these two structs: a host in C holds them, and may hold any number.

// Document 02, K11: the configuration before the last accepted change. `kept` is 0 where there is none to take back; the numbers
// are then the default configuration's.
#[repr(C)]
#[derive(Clone, Copy, Default)]
pub struct Former {
    pub kept: u32,
    pub config: PlaneGuidanceConfig,
}

// A guidance: f32 and u32 only, since a host holds it. `requested` is the requested regime: 0 copter, not 0 plane.
#[repr(C)]
#[derive(Clone, Copy)]
pub struct PlaneGuidance {
    pub config: PlaneGuidanceConfig,
    pub requested: u32,
    pub altitude: PiLoop,
    pub tecs: Tecs,
    pub former: Former,
}

// What a guide call takes besides the guidance. C is its command: `ControlInput`, a waypoint, or () where the command is not known yet.
#[derive(Clone, Copy)]
pub struct GuideCall<C> {
    pub dt: f32,
    pub regime: FlightRegime,
    pub command: C,
    pub state: VehicleState,
    pub cap: Option<f32>,
}

impl<C: Copy> GuideCall<C> {
    // The same call with another command.
    pub fn with<D>(self, command: D) -> GuideCall<D>
        ensures { result ≡ record { dt = self.dt; regime = self.regime; command = command; state = self.state; cap = self.cap } }
    {
        GuideCall {
            dt: self.dt,
            regime: self.regime,
            command,
            state: self.state,
            cap: self.cap,
        }
    }
}

pub type WaypointCall = GuideCall<WaypointCommand>;

#[derive(Clone, Copy)]
pub enum LateralLaw {
    Track,
    Loiter,
    Idle,
}

#[derive(Clone, Copy)]
pub enum VerticalLaw {
    Energy,
    Hold,
    Fallback,
}

// The two law names of a waypoint answer.
#[derive(Clone, Copy)]
pub struct Laws {
    pub lateral: LateralLaw,
    pub vertical: VerticalLaw,
}

// `cross_track_m` is the distance off the line, in metres, right positive; it may be not finite.
#[derive(Clone, Copy)]
pub struct WaypointAnswer {
    pub setpoint: Setpoint,
    pub laws: Laws,
    pub cross_track_m: f32,
}

// The answer to an accepted guide call: the setpoint of a command other than a waypoint, or a waypoint's.
#[derive(Clone, Copy)]
pub enum Answer {
    Commanded(Setpoint),
    Waypoint(WaypointAnswer),
}

// The guidance after a guide call, which a refusal leaves as it was, and the call's answer. Not a Result of both: whoever runs a list of
// calls goes on with the guidance after each, refused or not.
#[derive(Clone, Copy)]
pub struct Guided {
    pub guidance: PlaneGuidance,
    pub answer: Result<Answer, Refusal>,
}

// What a lateral law answers.
#[derive(Clone, Copy)]
pub struct Steered {
    pub law: LateralLaw,
    pub roll_rad: f32,
    pub cross_track_m: f32,
}

// What a vertical law would answer and store; `Refusal::NotFinite` stores none of it.
#[derive(Clone, Copy)]
pub struct Vertical {
    pub pitch_rad: f32,
    pub thrust: f32,
    pub altitude: PiLoop,
    pub tecs: Tecs,
}

// The Rust's own enum beside `FlightRegime`: what is flown, and not what is asked for.
#[derive(Clone, Copy)]
pub enum FlightMode {
    Copter,
    Plane,
}

#[derive(Clone, Copy)]
pub enum ModeRefusal {
    Unsupported,
}

#[derive(Clone, Copy)]
pub struct FlightModeReport {
    pub mode: FlightMode,
    pub refusal: Option<ModeRefusal>,
}
