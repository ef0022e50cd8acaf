// The setpoints of the commands other than a waypoint.
ghost use Rattle.std.specs.Prelude.{◌≡◌};
ghost use Rattle.guidance.specs.Plane as spec;

use arithmetic::order::choose;
use laws::config::PlaneGuidanceConfig;
use laws::math::{saturate_throttle, saturate_unit};
use laws::types::{
    AbsoluteAttitudeCommand, AbsoluteRateCommand, AttitudeCommand, RateCommand, Setpoint,
};

// Sticks to bank and pitch, whose limits differ up and down.
#[tactic(auto, unfolding(crate::specs::Plane::sticks))]
pub fn sticks(config: PlaneGuidanceConfig, command: AttitudeCommand) -> Setpoint
    ensures { result ≡ spec.sticks config command }
{
    let pitch = saturate_unit(command.pitch);
    let pitch_limit = choose(
        pitch >= 0.0,
        config.max_pitch_up_rad,
        config.max_pitch_down_rad,
    );
    Setpoint::Plane {
        roll_rad: saturate_unit(command.roll) * config.max_bank_rad,
        pitch_rad: pitch * pitch_limit,
        thrust: saturate_throttle(command.throttle),
    }
}

// Sticks to body rates.
#[tactic(auto, unfolding(crate::specs::Plane::rates))]
pub fn rates(config: PlaneGuidanceConfig, command: RateCommand) -> Setpoint
    ensures { result ≡ spec.rates config command }
{
    Setpoint::PlaneRate {
        roll_radps: saturate_unit(command.roll_rate) * config.max_rate_radps.x,
        pitch_radps: saturate_unit(command.pitch_rate) * config.max_rate_radps.y,
        yaw_radps: saturate_unit(command.yaw_rate) * config.max_rate_radps.z,
        thrust: saturate_throttle(command.throttle),
    }
}

// Angles pass unchecked, NaN included.
#[tactic(auto, unfolding(crate::specs::Plane::absolute_attitude))]
pub fn absolute_attitude(command: AbsoluteAttitudeCommand) -> Setpoint
    ensures { result ≡ spec.absolute_attitude command }
{
    Setpoint::Plane {
        roll_rad: command.roll_rad,
        pitch_rad: command.pitch_rad,
        thrust: saturate_throttle(command.thrust),
    }
}

// Rates pass unchecked, NaN included.
#[tactic(auto, unfolding(crate::specs::Plane::absolute_rate))]
pub fn absolute_rate(command: AbsoluteRateCommand) -> Setpoint
    ensures { result ≡ spec.absolute_rate command }
{
    Setpoint::PlaneRate {
        roll_radps: command.roll_radps,
        pitch_radps: command.pitch_radps,
        yaw_radps: command.yaw_radps,
        thrust: saturate_throttle(command.thrust),
    }
}

// Level, no thrust.
pub fn neutral() -> Setpoint
    ensures { result ≡ spec.neutral }
{
    Setpoint::Plane {
        roll_rad: 0.0,
        pitch_rad: 0.0,
        thrust: 0.0,
    }
}
