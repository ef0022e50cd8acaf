// What is kept of the Rust's lib.rs: commands, sensors and setpoints. What `guide_capped` never reads is left out.
ghost use Rattle.std.specs.Prelude.{◌≡◌};
ghost use Rattle.laws.specs.Types as spec;

use arithmetic::vector::Vec2;

// Standard gravity, in m/s².
pub const GRAVITY: f32 = 9.80665;

#[repr(C)]
#[derive(Clone, Copy, Default)]
pub struct Vec3 {
    pub x: f32,
    pub y: f32,
    pub z: f32,
}

// No From: which two of the three is said by the name.
pub fn north_east(v: Vec3) -> Vec2
    ensures { result ≡ spec.north_east v }
{
    Vec2 { x: v.x, y: v.y }
}

// Sticks: roll and pitch in [-1, 1], throttle in [0, 1].
#[derive(Clone, Copy)]
pub struct AttitudeCommand {
    pub throttle: f32,
    pub roll: f32,
    pub pitch: f32,
}

#[derive(Clone, Copy)]
pub struct RateCommand {
    pub throttle: f32,
    pub roll_rate: f32,
    pub pitch_rate: f32,
    pub yaw_rate: f32,
}

// A waypoint: north and east in metres, the leg's velocity where there is a leg.
#[derive(Clone, Copy)]
pub struct WaypointCommand {
    pub position_m: Vec2,
    pub velocity_mps: Option<Vec2>,
    pub altitude_m: f32,
    pub cruise_speed_mps: f32,
}

#[derive(Clone, Copy)]
pub struct AbsoluteAttitudeCommand {
    pub roll_rad: f32,
    pub pitch_rad: f32,
    pub thrust: f32,
}

#[derive(Clone, Copy)]
pub struct AbsoluteRateCommand {
    pub roll_radps: f32,
    pub pitch_radps: f32,
    pub yaw_radps: f32,
    pub thrust: f32,
}

#[derive(Clone, Copy)]
pub enum ControlInput {
    Attitude(AttitudeCommand),
    Rate(RateCommand),
    Waypoint(WaypointCommand),
    AbsoluteAttitude(AbsoluteAttitudeCommand),
    Land,
    AbsoluteRate(AbsoluteRateCommand),
}

// In the order of their numbers.
#[derive(Clone, Copy, PartialEq, Eq)]
pub enum FlightRegime {
    Copter,
    Plane,
}

// A number that is no regime's.
#[derive(Clone, Copy, PartialEq, Eq)]
pub struct UnknownRegime;

impl TryFrom<u32> for FlightRegime {
    type Error = UnknownRegime;

    ghost try_from_gives = { λ number r. r ≡ spec.regime_from number };

    fn try_from(number: u32) -> Result<FlightRegime, UnknownRegime> {
        match number {
            0 => Ok(FlightRegime::Copter),
            1 => Ok(FlightRegime::Plane),
            _ => Err(UnknownRegime),
        }
    }
}

// What the sensors report: position and velocity as north, east, up.
#[derive(Clone, Copy, Default)]
pub struct VehicleState {
    pub position_m: Vec3,
    pub velocity_mps: Vec3,
    pub roll_rad: f32,
    pub airspeed_mps: Option<f32>,
}

// Document 01: a plane setpoint or a plane rate setpoint.
#[derive(Clone, Copy)]
pub enum Setpoint {
    Plane {
        roll_rad: f32,
        pitch_rad: f32,
        thrust: f32,
    },
    PlaneRate {
        roll_radps: f32,
        pitch_radps: f32,
        yaw_radps: f32,
        thrust: f32,
    },
}

#[tactic(auto, unfolding(crate::specs::Types::at_least_zero))]
pub fn at_least_zero(a: Option<f32>) -> Option<f32>
    ensures { result ≡ spec.at_least_zero a }
{
    a.filter(|n| *n >= 0.0)
}

// The airspeed where it is usable: a NaN or a number below 0 counts as none.
#[tactic(auto, unfolding(crate::specs::Types::valid_airspeed))]
pub fn valid_airspeed_mps(state: VehicleState) -> Option<f32>
    ensures { result ≡ spec.valid_airspeed state }
{
    at_least_zero(state.airspeed_mps)
}
