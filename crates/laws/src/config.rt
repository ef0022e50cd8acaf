// The configuration: 33 numbers, numbered in the order of `validate`, which looks at two pairs of them last, as fields 34 and 35.
ghost use Rattle.std.specs.Prelude.{◌≡◌};
ghost use Rattle.laws.specs.Config as spec;

use crate::types::Vec3;
use arithmetic::trigonometry::{FRAC_PI_2, PI};

// Fields 15 to 30: total energy control.
#[repr(C)]
#[derive(Clone, Copy)]
pub struct TecsConfig {
    pub time_constant_s: f32,
    pub max_climb_mps: f32,
    pub min_sink_mps: f32,
    pub max_sink_mps: f32,
    pub thrust_damping: f32,
    pub integrator_gain: f32,
    pub pitch_damping: f32,
    pub pitch_integrator_gain: f32,
    pub speed_weight: f32,
    pub roll_compensation: f32,
    pub min_airspeed_mps: f32,
    pub max_airspeed_mps: f32,
    pub underspeed_share: f32,
    pub height_demand_time_constant_s: f32,
    pub airspeed_rate_time_constant_s: f32,
    pub kinetic_rate_high_pass_s: f32,
}

// Fields 1 to 14 (max_rate_radps is three), the energy configuration, and fields 31 to 33.
#[repr(C)]
#[derive(Clone, Copy)]
pub struct PlaneGuidanceConfig {
    pub max_bank_rad: f32,
    pub max_pitch_up_rad: f32,
    pub max_pitch_down_rad: f32,
    pub max_rate_radps: Vec3,
    pub trim_pitch_rad: f32,
    pub cruise_thrust: f32,
    pub l1_period_s: f32,
    pub l1_damping: f32,
    pub loiter_radius_m: f32,
    pub altitude_p: f32,
    pub altitude_i: f32,
    pub altitude_max_integral: f32,
    pub tecs: TecsConfig,
    pub min_thrust: f32,
    pub max_thrust: f32,
    pub climb_thrust_per_rad: f32,
}

// One degree in radians.
const DEG: f32 = PI / 180.0;

// The number of the first field that fails, 1 to 35. The Rust's InvalidConfig has the field's name. A number and no enum: records and
// hosts have the number, and 35 names would say no more.
#[derive(Clone, Copy, PartialEq, Eq)]
pub struct InvalidConfig {
    pub field: u32,
}

fn check(field: u32, passes: bool) -> Result<(), InvalidConfig>
    ensures { result ≡ spec.checked field passes }
{
    if passes {
        Ok(())
    } else {
        Err(InvalidConfig { field })
    }
}

fn check_limit(field: u32, value: f32) -> Result<(), InvalidConfig>
    ensures { result ≡ spec.checked field (spec.check_limit value) }
{
    check(field, (value >= 0.0) & value.is_finite())
}

fn check_positive(field: u32, value: f32) -> Result<(), InvalidConfig>
    ensures { result ≡ spec.checked field (spec.check_positive value) }
{
    check(field, (value > 0.0) & value.is_finite())
}

fn check_within(field: u32, low: f32, value: f32, high: f32) -> Result<(), InvalidConfig>
    ensures { result ≡ spec.checked field (spec.within low value high) }
{
    check(field, (value >= low) & (value <= high))
}

fn check_share(field: u32, value: f32) -> Result<(), InvalidConfig>
    ensures { result ≡ spec.checked field (spec.check_share value) }
{
    check(field, (value > 0.0) & (value <= 1.0))
}

// Document 02, K8: a least value above its greatest fails; equal ones pass, zeros of two signs too.
fn check_ordered(field: u32, least: f32, greatest: f32) -> Result<(), InvalidConfig>
    ensures { result ≡ spec.checked field (spec.ordered least greatest) }
{
    check(field, !(least > greatest))
}

// Fields 1 to 14.
#[tactic(auto, using(crate::proofs::Checked::checks), unfolding(crate::specs::Config::first_failing))]
fn check_first(c: PlaneGuidanceConfig) -> Result<(), InvalidConfig>
    ensures { result ≡ spec.verdict (spec.first_failing 1 (spec.first_tests c) 0) }
{
    check_within(1, 0.0, c.max_bank_rad, FRAC_PI_2)?;
    check_within(2, 0.0, c.max_pitch_up_rad, FRAC_PI_2)?;
    check_within(3, 0.0, c.max_pitch_down_rad, FRAC_PI_2)?;
    check_limit(4, c.max_rate_radps.x)?;
    check_limit(5, c.max_rate_radps.y)?;
    check_limit(6, c.max_rate_radps.z)?;
    check_within(7, -FRAC_PI_2, c.trim_pitch_rad, FRAC_PI_2)?;
    check_within(8, 0.0, c.cruise_thrust, 1.0)?;
    check_positive(9, c.l1_period_s)?;
    check_positive(10, c.l1_damping)?;
    check_positive(11, c.loiter_radius_m)?;
    check_limit(12, c.altitude_p)?;
    check_limit(13, c.altitude_i)?;
    check_limit(14, c.altitude_max_integral)
}

// Fields 31 to 33, and the two pairs, 34 and 35.
#[tactic(auto, using(crate::proofs::Checked::checks), unfolding(crate::specs::Config::first_failing))]
fn check_last(c: PlaneGuidanceConfig) -> Result<(), InvalidConfig>
    ensures { result ≡ spec.verdict (spec.first_failing 31 (spec.last_tests c) 0) }
{
    check_within(31, 0.0, c.min_thrust, 1.0)?;
    check_within(32, 0.0, c.max_thrust, 1.0)?;
    check_limit(33, c.climb_thrust_per_rad)?;
    check_ordered(34, c.tecs.min_airspeed_mps, c.tecs.max_airspeed_mps)?;
    check_ordered(35, c.min_thrust, c.max_thrust)
}

// Fields 15 to 30.
#[tactic(auto, using(crate::proofs::Checked::checks), unfolding(crate::specs::Config::tecs_judged, crate::specs::Config::tecs_validate, crate::specs::Config::first_failing))]
pub fn tecs_validate(t: TecsConfig) -> Result<(), InvalidConfig>
    ensures { result ≡ spec.tecs_judged t }
{
    check_positive(15, t.time_constant_s)?;
    check_positive(16, t.max_climb_mps)?;
    check_positive(17, t.min_sink_mps)?;
    check_limit(18, t.max_sink_mps)?;
    check_limit(19, t.thrust_damping)?;
    check_limit(20, t.integrator_gain)?;
    check_limit(21, t.pitch_damping)?;
    check_limit(22, t.pitch_integrator_gain)?;
    check_within(23, 0.0, t.speed_weight, 2.0)?;
    check_limit(24, t.roll_compensation)?;
    check_positive(25, t.min_airspeed_mps)?;
    check_positive(26, t.max_airspeed_mps)?;
    check_share(27, t.underspeed_share)?;
    check_positive(28, t.height_demand_time_constant_s)?;
    check_positive(29, t.airspeed_rate_time_constant_s)?;
    check_positive(30, t.kinetic_rate_high_pass_s)
}

// All 35 fields, in their order.
#[tactic(auto, using(crate::proofs::Checked::checks, crate::proofs::Checked::parts), unfolding(crate::specs::Config::tecs_judged, crate::specs::Config::judged))]
pub fn validate(c: PlaneGuidanceConfig) -> Result<(), InvalidConfig>
    ensures { result ≡ spec.judged c }
{
    let t = c.tecs;
    check_first(c)?;
    tecs_validate(t)?;
    check_last(c)
}

impl Default for TecsConfig {
    ghost is_default = { λ t. t ≡ spec.tecs_default };

    #[tactic(auto, unfolding(crate::specs::Config::tecs_default))]
    fn default() -> TecsConfig {
        TecsConfig {
            time_constant_s: 5.0,
            max_climb_mps: 5.0,
            min_sink_mps: 2.0,
            max_sink_mps: 5.0,
            thrust_damping: 0.5,
            integrator_gain: 0.3,
            pitch_damping: 0.3,
            pitch_integrator_gain: 0.2,
            speed_weight: 1.0,
            roll_compensation: 10.0,
            min_airspeed_mps: 10.0,
            max_airspeed_mps: 25.0,
            underspeed_share: 0.9,
            height_demand_time_constant_s: 3.0,
            airspeed_rate_time_constant_s: 0.5,
            kinetic_rate_high_pass_s: 1.0,
        }
    }
}

impl Default for PlaneGuidanceConfig {
    ghost is_default = { λ c. c ≡ spec.default };

    fn default() -> PlaneGuidanceConfig {
        PlaneGuidanceConfig {
            max_bank_rad: 45.0 * DEG,
            max_pitch_up_rad: 20.0 * DEG,
            max_pitch_down_rad: 25.0 * DEG,
            max_rate_radps: Vec3 {
                x: 180.0 * DEG,
                y: 180.0 * DEG,
                z: 0.0,
            },
            trim_pitch_rad: 0.0,
            cruise_thrust: 0.5,
            l1_period_s: 12.0,
            l1_damping: 0.75,
            loiter_radius_m: 40.0,
            altitude_p: 0.05,
            altitude_i: 0.01,
            altitude_max_integral: 20.0,
            tecs: TecsConfig::default(),
            min_thrust: 0.2,
            max_thrust: 1.0,
            climb_thrust_per_rad: 0.5,
        }
    }
}
