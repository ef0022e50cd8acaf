// A row's call: its configuration, or its command and sensors. tools/vectors/guidance.py says what is in a row.
use arithmetic::vector::Vec2;
use case_rows::{Row, from_bits};
use config_numbers::config_of_bits;
use guidance::plane::GuideCall;
use laws::config::PlaneGuidanceConfig;
use laws::types::{
    AbsoluteAttitudeCommand, AbsoluteRateCommand, AttitudeCommand, ControlInput, FlightRegime,
    RateCommand, Vec3, VehicleState, WaypointCommand,
};

pub type Guide = GuideCall<ControlInput>;

// A call on a guidance, or one that makes it anew.
#[derive(Clone, Copy)]
pub enum Call {
    Prime,
    Guide(Guide),
    SetConfig(PlaneGuidanceConfig),
    New(PlaneGuidanceConfig),
    TakeBack,
}

impl Call {
    // A command of kind 6, or of none of these numbers, is an absolute rate.
    pub fn of(row: &Row) -> Call {
        match row.words[0] {
            0 => Call::Prime,
            1 => Call::guide(row, ControlInput::Attitude(attitude(row))),
            2 => Call::guide(row, ControlInput::Rate(rate(row))),
            3 => Call::guide(row, ControlInput::Waypoint(waypoint(row))),
            4 => Call::guide(row, ControlInput::AbsoluteAttitude(absolute_attitude(row))),
            5 => Call::guide(row, ControlInput::Land),
            7 => Call::SetConfig(config(row)),
            8 => Call::New(config(row)),
            9 => Call::TakeBack,
            _ => Call::guide(row, ControlInput::AbsoluteRate(absolute_rate(row))),
        }
    }

    fn guide(row: &Row, command: ControlInput) -> Call {
        Call::Guide(GuideCall {
            dt: from_bits(row.words[2]),
            regime: FlightRegime::try_from(row.words[1]).unwrap_or(FlightRegime::Plane),
            command,
            state: sensors(row),
            cap: given(row.words[23], from_bits(row.words[24])),
        })
    }
}

fn config(row: &Row) -> PlaneGuidanceConfig {
    config_of_bits(row.words(1))
}

// Also in laws_cases: case_rows, on which both stand, knows no vectors.
fn vec2([x, y]: [f32; 2]) -> Vec2 {
    Vec2 { x, y }
}

fn vec3([x, y, z]: [f32; 3]) -> Vec3 {
    Vec3 { x, y, z }
}

// A value that is missing where its word is 0. As call_numbers', a crate of the hosts'.
fn given<T: Drop>(stands: u32, value: T) -> Option<T> {
    (stands != 0).then_some(value)
}

fn attitude(row: &Row) -> AttitudeCommand {
    let [roll, pitch, throttle] = row.numbers::<3>(3);
    AttitudeCommand {
        throttle,
        roll,
        pitch,
    }
}

fn rate(row: &Row) -> RateCommand {
    let [roll_rate, pitch_rate, yaw_rate, throttle] = row.numbers::<4>(3);
    RateCommand {
        throttle,
        roll_rate,
        pitch_rate,
        yaw_rate,
    }
}

fn waypoint(row: &Row) -> WaypointCommand {
    let [altitude_m, cruise_speed_mps] = row.numbers::<2>(12);
    WaypointCommand {
        position_m: vec2(row.numbers(7)),
        velocity_mps: given(row.words[9], vec2(row.numbers(10))),
        altitude_m,
        cruise_speed_mps,
    }
}

fn absolute_attitude(row: &Row) -> AbsoluteAttitudeCommand {
    let [roll_rad, pitch_rad, thrust] = row.numbers::<3>(3);
    AbsoluteAttitudeCommand {
        roll_rad,
        pitch_rad,
        thrust,
    }
}

fn absolute_rate(row: &Row) -> AbsoluteRateCommand {
    let [roll_radps, pitch_radps, yaw_radps, thrust] = row.numbers::<4>(3);
    AbsoluteRateCommand {
        roll_radps,
        pitch_radps,
        yaw_radps,
        thrust,
    }
}

fn sensors(row: &Row) -> VehicleState {
    VehicleState {
        position_m: vec3(row.numbers(14)),
        velocity_mps: vec3(row.numbers(17)),
        roll_rad: from_bits(row.words[20]),
        airspeed_mps: given(row.words[21], from_bits(row.words[22])),
    }
}
