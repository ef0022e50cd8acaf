// Total energy control: thrust sets the rate of the total energy, pitch the balance between height and airspeed. The public functions
// take what the Rust's methods of these names read: self's fields, the configuration and the limits apart, dt, targets and sensors as
// `Inputs`, a rule of the project; inside, what travels together is one `Sample` or one `Balance`.
ghost use Rattle.std.specs.Prelude.{◌≡◌};
ghost use Rattle.laws.specs.Tecs as spec;

use crate::config::TecsConfig;
use crate::math::{clamp_symmetric, lagged};
use crate::types::GRAVITY;
use arithmetic::order::{choose, clamp, clamp_ordered, greatest, least};
use arithmetic::trigonometry::cosine;

// Below this airspeed the pitch terms stop growing.
const MIN_GAIN_AIRSPEED_MPS: f32 = 3.0;

// The least squared cosine of the bank that the turn's drag divides by.
const MIN_COS2_BANK: f32 = 0.1;

// How far past a thrust limit the thrust integral may push.
const THRUST_INTEGRAL_MARGIN: f32 = 0.1;

// Height and airspeed demands, slewed toward the targets.
#[repr(C)]
#[derive(Clone, Copy, Default)]
pub struct Demand {
    pub slewed_height_m: f32,
    pub height_m: f32,
    pub airspeed_mps: f32,
}

// The stored energy state: f32 and u32 only, since a host holds it. The Rust's three Options (demand, filtered airspeed, steady
// acceleration) are set and cleared together, so that one flag, `seeded`, says of all three whether they are present; absent, they are +0.
#[repr(C)]
#[derive(Clone, Copy, Default)]
pub struct Tecs {
    // A flag, 0 or not 0, and no bool: a host in C holds it, and may hold any word.
    pub seeded: u32,
    pub demand: Demand,
    pub pitch_integral_rad: f32,
    pub thrust_integral: f32,
    // A flag, as `seeded`: a call that neither sets nor clears it hands back the word that it was given.
    pub underspeed: u32,
    pub filtered_airspeed_mps: f32,
    pub steady_accel_mps2: f32,
}

// The guidance's limits that total energy control flies within.
#[derive(Clone, Copy)]
pub struct Limits {
    pub pitch_up_rad: f32,
    pub pitch_down_rad: f32,
    pub trim_pitch_rad: f32,
    pub min_thrust: f32,
    pub max_thrust: f32,
    pub cruise_thrust: f32,
}

// What one energy step reads: the time step, the targets and the sensors.
#[derive(Clone, Copy)]
pub struct Inputs {
    pub dt: f32,
    pub altitude_m: f32,
    pub airspeed_target_mps: f32,
    pub airspeed_mps: f32,
    pub height_m: f32,
    pub climb_mps: f32,
    pub roll_rad: f32,
}

// What the energies of one step are formed from; the speed is the airspeed that its rates divide by.
#[derive(Clone, Copy)]
struct Sample {
    config: TecsConfig,
    inputs: Inputs,
    speed_mps: f32,
}

// Energy rates and errors of one step, per unit mass: m²/s² and m²/s³.
#[derive(Clone, Copy)]
pub struct Energies {
    pub potential_error: f32,
    pub kinetic_error: f32,
    pub potential_rate_demand: f32,
    pub kinetic_rate_demand: f32,
    pub potential_rate: f32,
    pub kinetic_rate: f32,
    pub speed_mps: f32,
}

// The low-passed airspeed, and its rate low-passed.
#[derive(Clone, Copy)]
pub struct Filter {
    pub filtered_airspeed_mps: f32,
    pub steady_accel_mps2: f32,
}

// The energies of one step, with what the step stores of them.
#[derive(Clone, Copy)]
pub struct EnergiesResult {
    pub energies: Energies,
    pub demand: Demand,
    pub filter: Filter,
}

// What the thrust and the pitch of one step are worked out from.
#[derive(Clone, Copy)]
struct Balance {
    config: TecsConfig,
    limits: Limits,
    energies: Energies,
    dt: f32,
}

#[derive(Clone, Copy)]
pub struct ThrustResult {
    pub thrust: f32,
    pub integral: f32,
}

#[derive(Clone, Copy)]
pub struct PitchResult {
    pub pitch_rad: f32,
    pub integral_rad: f32,
}

// One energy step: the energy state after it, pitch and thrust.
#[derive(Clone, Copy)]
pub struct TecsResult {
    pub tecs: Tecs,
    pub pitch_rad: f32,
    pub thrust: f32,
}

// A stored flag stands where it is not 0. The laws take it as it is stored.
pub fn flag(n: u32) -> bool
    ensures { result ≡ spec.flag n }
{
    n != 0
}

// The Rust's reset, a rule of the project: it stores Tecs::default.
#[tactic(auto, unfolding(crate::specs::Tecs::reset))]
pub fn reset() -> Tecs
    ensures { result ≡ spec.reset }
{
    Tecs::default()
}

#[tactic(auto, unfolding(crate::specs::Tecs::update_underspeed))]
pub fn update_underspeed(underspeed: u32, config: TecsConfig, airspeed_mps: f32) -> u32
    ensures { result ≡ spec.update_underspeed underspeed config airspeed_mps }
{
    if airspeed_mps < config.underspeed_share * config.min_airspeed_mps {
        return 1;
    }
    if airspeed_mps >= config.min_airspeed_mps {
        0
    } else {
        underspeed
    }
}

pub fn max_energy_rate(config: TecsConfig) -> f32
    ensures { result ≡ spec.max_energy_rate config }
{
    GRAVITY * config.max_climb_mps
}

pub fn least_energy_rate(config: TecsConfig) -> f32
    ensures { result ≡ spec.least_energy_rate config }
{
    -GRAVITY * config.max_sink_mps
}

#[tactic(auto, using(crate::proofs::Ordered::greatest_ordered), unfolding(crate::specs::Tecs::clamp_airspeed))]
fn clamp_airspeed(config: TecsConfig, airspeed_mps: f32) -> f32
    ensures { result ≡ spec.clamp_airspeed config airspeed_mps }
{
    let min_mps = config.min_airspeed_mps;
    clamp_ordered(
        airspeed_mps,
        min_mps,
        greatest(config.max_airspeed_mps, min_mps),
    )
}

impl Sample {
    #[tactic(auto, unfolding(crate::specs::Tecs::seed_demand))]
    fn seed_demand(self) -> Demand
        ensures { result ≡ spec.seed_demand self.config self.inputs }
    {
        let (config, inputs) = (self.config, self.inputs);
        let entry_climb_mps = clamp(inputs.climb_mps, -config.max_sink_mps, config.max_climb_mps);
        Demand {
            slewed_height_m: inputs.height_m
                + entry_climb_mps * config.height_demand_time_constant_s,
            height_m: inputs.height_m,
            airspeed_mps: clamp_airspeed(config, inputs.airspeed_mps),
        }
    }

    #[tactic(auto, unfolding(crate::specs::Tecs::previous_demand))]
    fn previous_demand(self, s: Tecs) -> Demand
        ensures { result ≡ spec.previous_demand s self.config self.inputs }
    {
        if flag(s.seeded) {
            s.demand
        } else {
            self.seed_demand()
        }
    }

    #[tactic(auto, unfolding(crate::specs::Tecs::slewed_height))]
    fn slewed_height(self, previous_m: f32) -> f32
        ensures { result ≡ spec.slewed_height previous_m self.config self.inputs }
    {
        let (config, inputs) = (self.config, self.inputs);
        let window_s = greatest(config.time_constant_s, config.height_demand_time_constant_s);
        let rise_m = clamp(
            inputs.altitude_m - previous_m,
            -config.max_sink_mps * inputs.dt,
            config.max_climb_mps * inputs.dt,
        );
        clamp(
            previous_m + rise_m,
            inputs.height_m - window_s * config.max_sink_mps,
            inputs.height_m + window_s * config.max_climb_mps,
        )
    }

    #[tactic(auto, unfolding(crate::specs::Tecs::slewed_airspeed))]
    fn slewed_airspeed(self, previous_mps: f32) -> f32
        ensures { result ≡ spec.slewed_airspeed previous_mps self.config self.inputs self.speed_mps }
    {
        let dt = self.inputs.dt;
        let max_accel_mps2 = 0.5 * max_energy_rate(self.config) / self.speed_mps;
        let target_mps = clamp_airspeed(self.config, self.inputs.airspeed_target_mps);
        previous_mps
            + clamp(
                target_mps - previous_mps,
                -max_accel_mps2 * dt,
                max_accel_mps2 * dt,
            )
    }

    #[tactic(auto, unfolding(crate::specs::Tecs::next_demand))]
    fn next_demand(self, d: Demand) -> Demand
        ensures { result ≡ spec.next_demand d self.config self.inputs self.speed_mps }
    {
        let slewed_m = self.slewed_height(d.slewed_height_m);
        Demand {
            slewed_height_m: slewed_m,
            height_m: lagged(
                d.height_m,
                slewed_m,
                self.inputs.dt,
                self.config.height_demand_time_constant_s,
            ),
            airspeed_mps: self.slewed_airspeed(d.airspeed_mps),
        }
    }

    fn accel_of(self, filtered_mps: f32) -> f32
        ensures { result ≡ spec.accel_of filtered_mps self.config self.inputs }
    {
        (self.inputs.airspeed_mps - filtered_mps) / self.config.airspeed_rate_time_constant_s
    }

    #[tactic(auto, unfolding(crate::specs::Tecs::previous_filter, crate::specs::Tecs::seed_filter))]
    fn previous_filter(self, s: Tecs) -> Filter
        ensures { result ≡ spec.previous_filter s self.config self.inputs }
    {
        if flag(s.seeded) {
            Filter {
                filtered_airspeed_mps: s.filtered_airspeed_mps,
                steady_accel_mps2: s.steady_accel_mps2,
            }
        } else {
            let airspeed_mps = self.inputs.airspeed_mps;
            Filter {
                filtered_airspeed_mps: airspeed_mps,
                steady_accel_mps2: self.accel_of(airspeed_mps),
            }
        }
    }

    #[tactic(auto, unfolding(crate::specs::Tecs::next_filter))]
    fn next_filter(self, filter: Filter) -> Filter
        ensures { result ≡ spec.next_filter filter self.config self.inputs }
    {
        let (config, inputs) = (self.config, self.inputs);
        Filter {
            filtered_airspeed_mps: lagged(
                filter.filtered_airspeed_mps,
                inputs.airspeed_mps,
                inputs.dt,
                config.airspeed_rate_time_constant_s,
            ),
            steady_accel_mps2: lagged(
                filter.steady_accel_mps2,
                self.accel_of(filter.filtered_airspeed_mps),
                inputs.dt,
                config.kinetic_rate_high_pass_s,
            ),
        }
    }

    #[tactic(auto, unfolding(crate::specs::Tecs::energies_of))]
    fn energies_of(self, previous: Demand, next: Demand, filter: Filter) -> Energies
        ensures { result ≡ spec.energies_of previous next filter self.config self.inputs self.speed_mps }
    {
        let (config, inputs, speed_mps) = (self.config, self.inputs, self.speed_mps);
        let height_rate_mps = (next.height_m - previous.height_m) / inputs.dt;
        let changing_accel_mps2 = self.accel_of(filter.filtered_airspeed_mps)
            - filter.steady_accel_mps2;
        let potential_error = GRAVITY * (next.height_m - inputs.height_m);
        let kinetic_error = 0.5
            * (next.airspeed_mps * next.airspeed_mps - inputs.airspeed_mps * inputs.airspeed_mps);
        Energies {
            potential_error,
            kinetic_error,
            potential_rate_demand: clamp(
                GRAVITY * height_rate_mps + potential_error / config.time_constant_s,
                least_energy_rate(config),
                max_energy_rate(config),
            ),
            kinetic_rate_demand: kinetic_error / config.time_constant_s,
            potential_rate: GRAVITY * inputs.climb_mps,
            kinetic_rate: speed_mps * changing_accel_mps2,
            speed_mps,
        }
    }

    #[tactic(auto, unfolding(crate::specs::Tecs::energies))]
    fn energies(self, s: Tecs) -> EnergiesResult
        ensures { result ≡ spec.energies s self.config self.inputs self.speed_mps }
    {
        let previous = self.previous_demand(s);
        let demand = self.next_demand(previous);
        let before = self.previous_filter(s);
        EnergiesResult {
            energies: self.energies_of(previous, demand, before),
            demand,
            filter: self.next_filter(before),
        }
    }
}

// The Rust's Tecs::energies, whose name differs from its struct's only in the case of a letter.
pub fn update_energies(
    s: Tecs,
    config: TecsConfig,
    inputs: Inputs,
    speed_mps: f32,
) -> EnergiesResult
    ensures { result ≡ spec.energies s config inputs speed_mps }
{
    let sample = Sample {
        config,
        inputs,
        speed_mps,
    };
    sample.energies(s)
}

impl Balance {
    #[tactic(auto, unfolding(crate::specs::Tecs::turn_rate))]
    fn turn_rate(self, roll_rad: f32) -> f32
        ensures { result ≡ spec.turn_rate self.config roll_rad }
    {
        let cos_bank = cosine(roll_rad);
        let cos2 = greatest(cos_bank * cos_bank, MIN_COS2_BANK);
        choose(
            cos2.is_finite(),
            self.config.roll_compensation * (1.0 / cos2 - 1.0),
            0.0,
        )
    }

    #[tactic(auto, unfolding(crate::specs::Tecs::feedforward))]
    fn feedforward(self, rate: f32) -> f32
        ensures { result ≡ spec.feedforward rate self.config self.limits }
    {
        let (config, limits) = (self.config, self.limits);
        let cruise = clamp(limits.cruise_thrust, limits.min_thrust, limits.max_thrust);
        if rate >= 0.0 {
            cruise + rate / max_energy_rate(config) * (limits.max_thrust - cruise)
        } else {
            cruise + rate / -(-GRAVITY * config.min_sink_mps) * (cruise - limits.min_thrust)
        }
    }

    #[tactic(auto, unfolding(crate::specs::Tecs::balanced_thrust))]
    fn balanced_thrust(self, integral: f32, roll_rad: f32) -> ThrustResult
        ensures { result ≡ spec.balanced_thrust integral self.config self.limits self.energies self.dt roll_rad }
    {
        let (config, e) = (self.config, self.energies);
        let low = self.limits.min_thrust;
        let high = self.limits.max_thrust;
        let max_rate = max_energy_rate(config);
        let min_rate = -GRAVITY * config.min_sink_mps;
        let kinetic_rate_demand = clamp_symmetric(e.kinetic_rate_demand, 0.5 * max_rate);
        let rate_demand = clamp(
            e.potential_rate_demand + kinetic_rate_demand,
            min_rate,
            max_rate,
        );
        let rate = e.potential_rate + e.kinetic_rate;
        let forward = self.feedforward(rate_demand + self.turn_rate(roll_rad));
        let gain = (high - low) / (max_rate - min_rate);
        let proportional = forward + gain * config.thrust_damping * (rate_demand - rate);
        let total_error = e.potential_error + e.kinetic_error;
        let sum = clamp(
            integral
                + config.integrator_gain * gain * total_error / config.time_constant_s * self.dt,
            low - proportional - THRUST_INTEGRAL_MARGIN,
            high - proportional + THRUST_INTEGRAL_MARGIN,
        );
        ThrustResult {
            thrust: clamp(proportional + sum, low, high),
            integral: sum,
        }
    }

    #[tactic(auto, unfolding(crate::specs::Tecs::thrust))]
    fn thrust(self, underspeed: u32, integral: f32, roll_rad: f32) -> ThrustResult
        ensures { result ≡ spec.thrust underspeed integral self.config self.limits self.energies self.dt roll_rad }
    {
        if flag(underspeed) {
            return ThrustResult {
                thrust: self.limits.max_thrust,
                integral,
            };
        }
        self.balanced_thrust(integral, roll_rad)
    }

    #[tactic(auto, unfolding(crate::specs::Tecs::pitch_integral))]
    fn pitch_integral(self, pinned: bool, integral: f32, step: f32) -> f32
        ensures { result ≡ spec.pitch_integral pinned integral step self.dt self.config }
    {
        if pinned {
            lagged(integral, 0.0, self.dt, self.config.time_constant_s)
        } else {
            integral + step
        }
    }

    #[tactic(auto, unfolding(crate::specs::Tecs::pitch))]
    fn pitch(self, underspeed: u32, integral: f32) -> PitchResult
        ensures { result ≡ spec.pitch underspeed integral self.config self.limits self.energies self.dt }
    {
        let (config, e) = (self.config, self.energies);
        let high = self.limits.pitch_up_rad;
        let low = -self.limits.pitch_down_rad;
        let speed_weight = choose(flag(underspeed), 2.0, config.speed_weight);
        let kinetic_weight = least(speed_weight, 1.0);
        let potential_weight = least(2.0 - speed_weight, 1.0);
        let rate_demand = clamp(
            potential_weight * e.potential_rate_demand - kinetic_weight * e.kinetic_rate_demand,
            least_energy_rate(config),
            max_energy_rate(config),
        );
        let rate = potential_weight * e.potential_rate - kinetic_weight * e.kinetic_rate;
        let rate_error = rate_demand - rate;
        let per_rad = e.speed_mps * GRAVITY;
        let proportional_rad = self.limits.trim_pitch_rad
            + (rate_demand + config.pitch_damping * rate_error) / per_rad;
        let step_rad = config.pitch_integrator_gain * rate_error / per_rad * self.dt;
        let unclamped = proportional_rad + integral + step_rad;
        let pinned = ((unclamped > high) & (step_rad > 0.0))
            | ((unclamped < low) & (step_rad < 0.0));
        let next = clamp(
            self.pitch_integral(pinned, integral, step_rad),
            low - high,
            high - low,
        );
        PitchResult {
            pitch_rad: clamp(proportional_rad + next, low, high),
            integral_rad: next,
        }
    }
}

pub fn thrust(
    underspeed: u32,
    integral: f32,
    config: TecsConfig,
    limits: Limits,
    e: Energies,
    dt: f32,
    roll_rad: f32,
) -> ThrustResult
    ensures { result ≡ spec.thrust underspeed integral config limits e dt roll_rad }
{
    let balance = Balance {
        config,
        limits,
        energies: e,
        dt,
    };
    balance.thrust(underspeed, integral, roll_rad)
}

pub fn pitch(
    underspeed: u32,
    integral: f32,
    config: TecsConfig,
    limits: Limits,
    e: Energies,
    dt: f32,
) -> PitchResult
    ensures { result ≡ spec.pitch underspeed integral config limits e dt }
{
    let balance = Balance {
        config,
        limits,
        energies: e,
        dt,
    };
    balance.pitch(underspeed, integral)
}

#[tactic(auto, unfolding(crate::specs::Tecs::all_inputs_finite))]
pub fn all_inputs_finite(inputs: Inputs) -> bool
    ensures { result ≡ spec.all_inputs_finite inputs }
{
    inputs.altitude_m.is_finite()
        & inputs.airspeed_target_mps.is_finite()
        & inputs.airspeed_mps.is_finite()
        & inputs.height_m.is_finite()
        & inputs.climb_mps.is_finite()
}

// What the Rust's step gives where an input is not finite.
#[tactic(auto, unfolding(crate::specs::Tecs::hold))]
pub fn hold(s: Tecs, limits: Limits) -> TecsResult
    ensures { result ≡ spec.hold s limits }
{
    TecsResult {
        tecs: s,
        pitch_rad: limits.trim_pitch_rad,
        thrust: limits.cruise_thrust,
    }
}

// What the Rust's step gives where all inputs are finite.
#[tactic(auto, unfolding(crate::specs::Tecs::energy_step))]
pub fn energy_step(s: Tecs, config: TecsConfig, limits: Limits, inputs: Inputs) -> TecsResult
    ensures { result ≡ spec.energy_step s config limits inputs }
{
    let underspeed = update_underspeed(s.underspeed, config, inputs.airspeed_mps);
    let speed_mps = greatest(inputs.airspeed_mps, MIN_GAIN_AIRSPEED_MPS);
    let sample = Sample {
        config,
        inputs,
        speed_mps,
    };
    let r = sample.energies(s);
    let balance = Balance {
        config,
        limits,
        energies: r.energies,
        dt: inputs.dt,
    };
    let th = balance.thrust(underspeed, s.thrust_integral, inputs.roll_rad);
    let p = balance.pitch(underspeed, s.pitch_integral_rad);
    TecsResult {
        tecs: Tecs {
            seeded: 1,
            demand: r.demand,
            pitch_integral_rad: p.integral_rad,
            thrust_integral: th.integral,
            underspeed,
            filtered_airspeed_mps: r.filter.filtered_airspeed_mps,
            steady_accel_mps2: r.filter.steady_accel_mps2,
        },
        pitch_rad: p.pitch_rad,
        thrust: th.thrust,
    }
}

// The Rust's Tecs::step. The guidance, which names its law first, calls the two parts.
#[tactic(auto, unfolding(crate::specs::Tecs::step))]
pub fn step(s: Tecs, config: TecsConfig, limits: Limits, inputs: Inputs) -> TecsResult
    ensures { result ≡ spec.step s config limits inputs }
{
    if all_inputs_finite(inputs) {
        energy_step(s, config, limits, inputs)
    } else {
        hold(s, limits)
    }
}
