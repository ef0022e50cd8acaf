// One function for each law: whether its answer to a row's input is the row's.
ghost use Rattle.std.specs.Prelude.{◌+◌, ◌≤◌};
ghost use Rattle.case_rows.specs.declared.TheConstants.{MOST_WORDS};

use arithmetic::vector::Vec2;
use case_rows::energy::energy_words;
use case_rows::{Row, from_bits};
use config_numbers::{bits_of, config_of_bits, tecs_of};
use laws::config::{PlaneGuidanceConfig, TecsConfig};
use laws::navigation::PiLoop;
use laws::tecs::{Demand, Energies, Inputs, Limits, Tecs};
use laws::{config, math, navigation, tecs};

// Also in guidance_cases: case_rows, on which both stand, knows no vectors.
fn vec2([x, y]: [f32; 2]) -> Vec2 {
    Vec2 { x, y }
}

fn limits(n: [f32; 6]) -> Limits {
    Limits {
        pitch_up_rad: n[0],
        pitch_down_rad: n[1],
        trim_pitch_rad: n[2],
        min_thrust: n[3],
        max_thrust: n[4],
        cruise_thrust: n[5],
    }
}

// The numbers are altitude, target, airspeed, height, climb and roll.
fn inputs(dt: f32, n: [f32; 6]) -> Inputs {
    Inputs {
        dt,
        altitude_m: n[0],
        airspeed_target_mps: n[1],
        airspeed_mps: n[2],
        height_m: n[3],
        climb_mps: n[4],
        roll_rad: n[5],
    }
}

fn energies_of(n: [f32; 7]) -> Energies {
    Energies {
        potential_error: n[0],
        kinetic_error: n[1],
        potential_rate_demand: n[2],
        kinetic_rate_demand: n[3],
        potential_rate: n[4],
        kinetic_rate: n[5],
        speed_mps: n[6],
    }
}

fn numbers_of(e: Energies) -> [f32; 7] {
    [
        e.potential_error,
        e.kinetic_error,
        e.potential_rate_demand,
        e.kinetic_rate_demand,
        e.potential_rate,
        e.kinetic_rate,
        e.speed_mps,
    ]
}

fn state(w: [u32; 9]) -> Tecs {
    Tecs {
        seeded: w[0],
        demand: Demand {
            slewed_height_m: from_bits(w[1]),
            height_m: from_bits(w[2]),
            airspeed_mps: from_bits(w[3]),
        },
        filtered_airspeed_mps: from_bits(w[4]),
        steady_accel_mps2: from_bits(w[5]),
        pitch_integral_rad: from_bits(w[6]),
        thrust_integral: from_bits(w[7]),
        underspeed: w[8],
    }
}

// What a row of thrust, pitch or a whole step begins with: dt, the configuration, the limits.
fn head(row: &Row) -> (f32, TecsConfig, Limits) {
    (
        from_bits(row.words[0]),
        tecs_of(row.numbers(1)),
        limits(row.numbers(17)),
    )
}

// Whether a row has these numbers from a place on, and the state after them.
fn has_state<const N: usize>(row: &Row, from: usize, numbers: [f32; N], after: Tecs) -> bool
    requires { from + N + 9 ≤ MOST_WORDS }
{
    row.has(from, numbers) && row.words(from + N) == energy_words(after)
}

// A law of one number. Not one function with the next: tried, and a bound `Fn([f32; N])` is not covered by the borrow checker yet.
pub fn of_one<L: Fn(f32) -> f32>(row: &Row, law: L) -> bool
    requires { L.IsAlwaysCallable law }
{
    let [x] = row.numbers::<1>(0);
    row.has(1, [law(x)])
}

// A law of two numbers.
pub fn of_two<L: Fn(f32, f32) -> f32>(row: &Row, law: L) -> bool
    requires { L.IsAlwaysCallable law }
{
    let [x, y] = row.numbers::<2>(0);
    row.has(2, [law(x, y)])
}

pub fn lagged(row: &Row) -> bool {
    let [value, target, dt, time_constant_s] = row.numbers::<4>(0);
    row.has(4, [math::lagged(value, target, dt, time_constant_s)])
}

pub fn l1(row: &Row) -> bool {
    let [ground_speed_mps, period_s, damping] = row.numbers::<3>(0);
    let r = navigation::l1(ground_speed_mps, period_s, damping);
    row.has(3, [r.distance_m, r.gain])
}

pub fn track(row: &Row) -> bool {
    let [period_s, damping] = row.numbers::<2>(8);
    let r = navigation::track_accel_mps2(
        vec2(row.numbers(0)),
        vec2(row.numbers(2)),
        vec2(row.numbers(4)),
        vec2(row.numbers(6)),
        period_s,
        damping,
    );
    row.has(10, [r.accel_mps2])
}

pub fn loiter(row: &Row) -> bool {
    let [radius_m, period_s, damping] = row.numbers::<3>(6);
    let r = navigation::loiter_accel_mps2(
        vec2(row.numbers(0)),
        vec2(row.numbers(2)),
        vec2(row.numbers(4)),
        radius_m,
        period_s,
        damping,
    );
    row.has(9, [r.accel_mps2])
}

pub fn pi_step(row: &Row) -> bool {
    let [dt, error, p, i, max_integral, low, high, fallback, integral] = row.numbers::<9>(0);
    let pi = PiLoop { integral };
    let r = navigation::pi_step(pi, dt, error, p, i, max_integral, low, high, fallback);
    row.has(9, [r.output, r.pi.integral])
}

pub fn update_underspeed(row: &Row) -> bool {
    let config = tecs_of(row.numbers(0));
    let airspeed_mps = from_bits(row.words[16]);
    tecs::update_underspeed(row.words[17], config, airspeed_mps) == row.words[18]
}

// dt, the configuration, altitude, target, airspeed, floored airspeed, height, climb, roll, state.
pub fn energies(row: &Row) -> bool {
    let n = row.numbers::<7>(17);
    let read = inputs(
        from_bits(row.words[0]),
        [n[0], n[1], n[2], n[4], n[5], n[6]],
    );
    let before = state(row.words(24));
    let config = tecs_of(row.numbers(1));
    let r = tecs::update_energies(before, config, read, n[3]);
    let after = Tecs {
        seeded: 1,
        demand: r.demand,
        filtered_airspeed_mps: r.filter.filtered_airspeed_mps,
        steady_accel_mps2: r.filter.steady_accel_mps2,
        ..before
    };
    has_state(row, 33, numbers_of(r.energies), after)
}

// After the head the energies, roll, state.
pub fn thrust(row: &Row) -> bool {
    let (dt, config, limits) = head(row);
    let e = energies_of(row.numbers(23));
    let roll_rad = from_bits(row.words[30]);
    let before = state(row.words(31));
    let (underspeed, integral) = (before.underspeed, before.thrust_integral);
    let r = tecs::thrust(underspeed, integral, config, limits, e, dt, roll_rad);
    let after = Tecs {
        thrust_integral: r.integral,
        ..before
    };
    has_state(row, 40, [r.thrust], after)
}

// After the head the energies, state.
pub fn pitch(row: &Row) -> bool {
    let (dt, config, limits) = head(row);
    let e = energies_of(row.numbers(23));
    let before = state(row.words(30));
    let (underspeed, integral) = (before.underspeed, before.pitch_integral_rad);
    let r = tecs::pitch(underspeed, integral, config, limits, e, dt);
    let after = Tecs {
        pitch_integral_rad: r.integral_rad,
        ..before
    };
    has_state(row, 39, [r.pitch_rad], after)
}

// After the head altitude, target, airspeed, height, climb, roll, state.
pub fn tecs_step(row: &Row) -> bool {
    let (dt, config, limits) = head(row);
    let r = tecs::step(
        state(row.words(29)),
        config,
        limits,
        inputs(dt, row.numbers(23)),
    );
    has_state(row, 38, [r.pitch_rad, r.thrust], r.tecs)
}

pub fn validate(row: &Row) -> bool {
    let config = config_of_bits(row.words(0));
    let failing = config::validate(config)
        .err()
        .map_or(0, |invalid| invalid.field);
    failing == row.words[33]
}

pub fn default(row: &Row) -> bool {
    bits_of(PlaneGuidanceConfig::default()) == row.words(0)
}
