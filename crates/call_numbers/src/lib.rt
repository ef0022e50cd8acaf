// A call as a host gives it: numbers and flags.
#![tactic(auto)]

ghost use Rattle.std.specs.Prelude.{◌≡◌};
ghost use Rattle.call_numbers.specs.Call as spec;

use arithmetic::vector::Vec2;
use guidance::plane::WaypointCall;
use laws::types::{
    AbsoluteAttitudeCommand, AbsoluteRateCommand, AttitudeCommand, FlightRegime, RateCommand, Vec3,
    VehicleState, WaypointCommand,
};
use records::call::{Call, Kind};

// A call as numbers. kind: as in the record; regime: 0 copter, 1 plane; first to fourth: the command numbers in the order
// `guide_capped` reads them; has_leg, has_airspeed, has_cap: flags, 0 or not 0. What the kind does not use is not read.
// Numbers and flags, since C has no enum that is safe to read as ours and no Option.
#[repr(C)]
#[derive(Clone, Copy)]
pub struct CallNumbers {
    pub kind: u32,
    pub regime: u32,
    pub dt: f32,
    pub first: f32,
    pub second: f32,
    pub third: f32,
    pub fourth: f32,
    pub waypoint_north_m: f32,
    pub waypoint_east_m: f32,
    pub has_leg: u32,
    pub leg_north_mps: f32,
    pub leg_east_mps: f32,
    pub altitude_m: f32,
    pub cruise_speed_mps: f32,
    pub position_m: Vec3,
    pub velocity_mps: Vec3,
    pub roll_rad: f32,
    pub has_airspeed: u32,
    pub airspeed_mps: f32,
    pub has_cap: u32,
    pub pitch_cap_rad: f32,
}

// A number that is no regime's counts as plane. No Result: the callers refuse such a number, before or after.
#[tactic(auto, unfolding(crate::specs::Call::regime_of))]
pub fn regime_of(n: u32) -> FlightRegime
    ensures { result ≡ spec.regime_of n }
{
    FlightRegime::try_from(n).unwrap_or(FlightRegime::Plane)
}

// A value that is none where its flag is 0.
#[tactic(auto, unfolding(crate::specs::Call::given))]
pub fn given<T: Drop>(flag: u32, value: T) -> Option<T>
    ensures { result ≡ spec.given flag value }
{
    (flag != 0).then_some(value)
}

// A waypoint call, whatever the kind says. No From: the numbers are a call's of any kind.
#[tactic(auto, unfolding(crate::specs::Call::waypoint_call))]
pub fn waypoint_call_of(k: CallNumbers) -> WaypointCall
    ensures { result ≡ spec.waypoint_call k }
{
    WaypointCall {
        dt: k.dt,
        regime: regime_of(k.regime),
        command: WaypointCommand {
            position_m: Vec2 {
                x: k.waypoint_north_m,
                y: k.waypoint_east_m,
            },
            velocity_mps: given(
                k.has_leg,
                Vec2 {
                    x: k.leg_north_mps,
                    y: k.leg_east_mps,
                },
            ),
            altitude_m: k.altitude_m,
            cruise_speed_mps: k.cruise_speed_mps,
        },
        state: VehicleState {
            position_m: k.position_m,
            velocity_mps: k.velocity_mps,
            roll_rad: k.roll_rad,
            airspeed_mps: given(k.has_airspeed, k.airspeed_mps),
        },
        cap: given(k.has_cap, k.pitch_cap_rad),
    }
}

#[tactic(auto, unfolding(crate::specs::Call::waypoint_of))]
fn waypoint_of(k: CallNumbers) -> Call
    ensures { result ≡ spec.waypoint_of k }
{
    let WaypointCall {
        dt,
        regime,
        command,
        state,
        cap,
    } = waypoint_call_of(k);
    Call::Waypoint {
        regime,
        dt,
        command,
        state,
        cap,
    }
}

// The call of a kind from 0 to 6; a kind that none is counts as the last. No Result: its caller has refused such a kind.
#[tactic(auto, using(crate::proofs::ByKind::by_kind))]
pub fn call_of(k: CallNumbers) -> Call
    ensures { result ≡ spec.from_numbers k }
{
    let regime = regime_of(k.regime);
    let dt = k.dt;
    match Kind::try_from(k.kind) {
        Ok(Kind::Prime) => Call::Prime,
        Ok(Kind::Attitude) => Call::Attitude {
            regime,
            dt,
            command: AttitudeCommand {
                throttle: k.third,
                roll: k.first,
                pitch: k.second,
            },
        },
        Ok(Kind::Rate) => Call::Rate {
            regime,
            dt,
            command: RateCommand {
                throttle: k.fourth,
                roll_rate: k.first,
                pitch_rate: k.second,
                yaw_rate: k.third,
            },
        },
        Ok(Kind::Waypoint) => waypoint_of(k),
        Ok(Kind::AbsoluteAttitude) => Call::AbsoluteAttitude {
            regime,
            dt,
            command: AbsoluteAttitudeCommand {
                roll_rad: k.first,
                pitch_rad: k.second,
                thrust: k.third,
            },
        },
        Ok(Kind::Land) => Call::Land { regime, dt },
        Ok(Kind::AbsoluteRate) | Err(_) => Call::AbsoluteRate {
            regime,
            dt,
            command: AbsoluteRateCommand {
                roll_radps: k.first,
                pitch_radps: k.second,
                yaw_radps: k.third,
                thrust: k.fourth,
            },
        },
    }
}
