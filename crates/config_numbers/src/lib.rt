// A configuration as the bits of its 33 numbers, fields 1 to 33, as its record has them. No From, here and below: neither the
// configuration nor an array is of this crate.
#![tactic(auto)]

ghost use Rattle.std.specs.Prelude.{◌≡◌};
ghost use Rattle.laws.specs.Config.{default};
ghost use Rattle.fields.specs.Numbers.{floats_of, bits_of};
ghost use Rattle.config_numbers.specs.Numbers.{tecs_from, config_of, numbers_of};

use fields::numbers::{bits_of as bits, floats_of as floats};
use laws::config::{PlaneGuidanceConfig, TecsConfig};
use laws::types::Vec3;

// The energy configuration of its 16 numbers, fields 15 to 30.
pub fn tecs_of(v: [f32; 16]) -> TecsConfig
    ensures { result ≡ tecs_from 0 v }
{
    TecsConfig {
        time_constant_s: v[0],
        max_climb_mps: v[1],
        min_sink_mps: v[2],
        max_sink_mps: v[3],
        thrust_damping: v[4],
        integrator_gain: v[5],
        pitch_damping: v[6],
        pitch_integrator_gain: v[7],
        speed_weight: v[8],
        roll_compensation: v[9],
        min_airspeed_mps: v[10],
        max_airspeed_mps: v[11],
        underspeed_share: v[12],
        height_demand_time_constant_s: v[13],
        airspeed_rate_time_constant_s: v[14],
        kinetic_rate_high_pass_s: v[15],
    }
}

// The configuration of 33 numbers.
#[tactic(auto, unfolding(crate::specs::Numbers::config_of))]
fn config_of(v: [f32; 33]) -> PlaneGuidanceConfig
    ensures { result ≡ config_of v }
{
    // One by one: copied as a slice, they made each reader of a configuration keep both arrays on the stack.
    let tecs = [
        v[14], v[15], v[16], v[17], v[18], v[19], v[20], v[21], v[22], v[23], v[24], v[25], v[26],
        v[27], v[28], v[29],
    ];
    PlaneGuidanceConfig {
        max_bank_rad: v[0],
        max_pitch_up_rad: v[1],
        max_pitch_down_rad: v[2],
        max_rate_radps: Vec3 {
            x: v[3],
            y: v[4],
            z: v[5],
        },
        trim_pitch_rad: v[6],
        cruise_thrust: v[7],
        l1_period_s: v[8],
        l1_damping: v[9],
        loiter_radius_m: v[10],
        altitude_p: v[11],
        altitude_i: v[12],
        altitude_max_integral: v[13],
        tecs: tecs_of(tecs),
        min_thrust: v[30],
        max_thrust: v[31],
        climb_thrust_per_rad: v[32],
    }
}

// The 33 numbers of a configuration.
#[tactic(auto, unfolding(crate::specs::Numbers::numbers_of))]
fn numbers_of(c: PlaneGuidanceConfig) -> [f32; 33]
    ensures { result ≡ numbers_of c }
{
    [
        c.max_bank_rad,
        c.max_pitch_up_rad,
        c.max_pitch_down_rad,
        c.max_rate_radps.x,
        c.max_rate_radps.y,
        c.max_rate_radps.z,
        c.trim_pitch_rad,
        c.cruise_thrust,
        c.l1_period_s,
        c.l1_damping,
        c.loiter_radius_m,
        c.altitude_p,
        c.altitude_i,
        c.altitude_max_integral,
        c.tecs.time_constant_s,
        c.tecs.max_climb_mps,
        c.tecs.min_sink_mps,
        c.tecs.max_sink_mps,
        c.tecs.thrust_damping,
        c.tecs.integrator_gain,
        c.tecs.pitch_damping,
        c.tecs.pitch_integrator_gain,
        c.tecs.speed_weight,
        c.tecs.roll_compensation,
        c.tecs.min_airspeed_mps,
        c.tecs.max_airspeed_mps,
        c.tecs.underspeed_share,
        c.tecs.height_demand_time_constant_s,
        c.tecs.airspeed_rate_time_constant_s,
        c.tecs.kinetic_rate_high_pass_s,
        c.min_thrust,
        c.max_thrust,
        c.climb_thrust_per_rad,
    ]
}

// The bits of a configuration's 33 numbers.
pub fn bits_of(c: PlaneGuidanceConfig) -> [u32; 33]
    ensures { result ≡ bits_of (numbers_of c) }
{
    bits(numbers_of(c))
}

// What missing fields mean.
pub fn default_bits() -> [u32; 33]
    ensures { result ≡ bits_of (numbers_of default) }
{
    bits_of(PlaneGuidanceConfig::default())
}

// The configuration of the bits of 33 numbers.
pub fn config_of_bits(b: [u32; 33]) -> PlaneGuidanceConfig
    ensures { result ≡ config_of (floats_of b) }
{
    config_of(floats(b))
}
