// A waypoint: its laws, their limits, and what it would answer and store.
ghost use Rattle.std.specs.Prelude.{◌≡◌};
ghost use Rattle.guidance.specs.Plane as spec;

use crate::plane::{
    Answer, Guided, LateralLaw, Laws, PlaneGuidance, Steered, Vertical, VerticalLaw,
    WaypointAnswer, WaypointCall,
};
use arithmetic::order::{clamp, greatest, least};
use arithmetic::vector::Vec2;
use laws::config::PlaneGuidanceConfig;
use laws::math::clamp_symmetric;
use laws::navigation::{PiLoop, bank_for_accel_rad, finite_leg, lateral_accel_mps2, pi_step};
use laws::tecs::{Inputs, Limits, TecsResult, all_inputs_finite, energy_step, hold, reset};
use laws::types::{
    FlightRegime, Setpoint, VehicleState, WaypointCommand, north_east, valid_airspeed_mps,
};
use refusals::Refusal;

fn bad_cap(cap: Option<f32>) -> bool
    ensures { result ≡ spec.bad_cap cap }
{
    cap.is_some_and(|n| n < 0.0)
}

fn lateral_of(idle: bool, leg: Option<Vec2>) -> LateralLaw
    ensures { result ≡ spec.lateral_of idle leg }
{
    if idle {
        LateralLaw::Idle
    } else if leg.is_some() {
        LateralLaw::Track
    } else {
        LateralLaw::Loiter
    }
}

#[tactic(auto, unfolding(crate::specs::Plane::on_energy_path))]
fn on_energy_path(w: WaypointCommand, state: VehicleState) -> bool
    ensures { result ≡ spec.on_energy_path w state }
{
    (w.cruise_speed_mps > 0.0) & valid_airspeed_mps(state).is_some()
}

// As the definition `inputs`: without an airspeed they are not flown. No From: a call is more than these inputs.
#[tactic(auto, unfolding(crate::specs::Plane::inputs))]
fn inputs_of(call: WaypointCall) -> Inputs
    ensures { result ≡ spec.inputs call.dt call.command call.state }
{
    Inputs {
        dt: call.dt,
        altitude_m: call.command.altitude_m,
        airspeed_target_mps: call.command.cruise_speed_mps,
        airspeed_mps: valid_airspeed_mps(call.state).unwrap_or(0.0),
        height_m: call.state.position_m.z,
        climb_mps: call.state.velocity_mps.z,
        roll_rad: call.state.roll_rad,
    }
}

// The law by its name, which the answer has too: no closure in its place.
#[tactic(auto, unfolding(crate::specs::Plane::vertical_law))]
fn vertical_law(call: WaypointCall) -> VerticalLaw
    ensures { result ≡ spec.vertical_law call.dt call.command call.state }
{
    if on_energy_path(call.command, call.state) {
        if all_inputs_finite(inputs_of(call)) {
            VerticalLaw::Energy
        } else {
            VerticalLaw::Hold
        }
    } else {
        VerticalLaw::Fallback
    }
}

// A pitch limit under a cap, where there is one.
fn capped(limit_rad: f32, cap: Option<f32>) -> f32
    ensures { result ≡ spec.capped limit_rad cap }
{
    cap.map_or(limit_rad, |n| least(limit_rad, n))
}

#[tactic(auto, unfolding(crate::specs::Plane::limits_of, crate::specs::Plane::top_thrust))]
fn limits_of(config: PlaneGuidanceConfig, cap: Option<f32>) -> Limits
    ensures { result ≡ spec.limits_of config cap }
{
    Limits {
        pitch_up_rad: capped(config.max_pitch_up_rad, cap),
        pitch_down_rad: capped(config.max_pitch_down_rad, cap),
        trim_pitch_rad: config.trim_pitch_rad,
        min_thrust: config.min_thrust,
        max_thrust: greatest(config.max_thrust, config.min_thrust),
        cruise_thrust: config.cruise_thrust,
    }
}

// The name of the lateral law, by what the law answers, its bank and the distance off its line.
#[tactic(auto, using(laws::proofs::Idle::idle_is, laws::proofs::OffLine::cross_track_is), unfolding(crate::specs::Plane::lateral_law, crate::specs::Plane::roll_of, crate::specs::Plane::cross_track_of))]
fn steered(config: PlaneGuidanceConfig, w: WaypointCommand, state: VehicleState) -> Steered
    ensures { result ≡ spec.steered config w state }
{
    let leg = finite_leg(w.velocity_mps);
    let lateral = lateral_accel_mps2(
        leg,
        north_east(state.position_m),
        north_east(state.velocity_mps),
        w.position_m,
        config.loiter_radius_m,
        config.l1_period_s,
        config.l1_damping,
    );
    Steered {
        law: lateral_of(lateral.idle, leg),
        roll_rad: clamp_symmetric(bank_for_accel_rad(lateral.accel_mps2), config.max_bank_rad),
        cross_track_m: lateral.cross_track_m,
    }
}

// On the energy path the altitude loop is cleared.
fn on_path(o: TecsResult) -> Vertical
    ensures { result ≡ spec.on_path o }
{
    Vertical {
        pitch_rad: o.pitch_rad,
        thrust: o.thrust,
        altitude: PiLoop::default(),
        tecs: o.tecs,
    }
}

// Pitch around trim from the altitude loop, within the pitch limits; cruise thrust plus what a climb needs.
#[tactic(auto, unfolding(crate::specs::Plane::fallback, crate::specs::Plane::height_error))]
fn fallback(g: &PlaneGuidance, call: WaypointCall) -> Vertical
    ensures { result ≡ spec.fallback g.now.config g.now.altitude call.dt call.command call.state call.cap }
{
    let config = g.config;
    let limits = limits_of(config, call.cap);
    let trim = config.trim_pitch_rad;
    let r = pi_step(
        g.altitude,
        call.dt,
        call.command.altitude_m - call.state.position_m.z,
        config.altitude_p,
        config.altitude_i,
        config.altitude_max_integral,
        -limits.pitch_down_rad - trim,
        limits.pitch_up_rad - trim,
        0.0,
    );
    let pitch_rad = trim + r.output;
    let thrust = config.cruise_thrust + config.climb_thrust_per_rad * (pitch_rad - trim);
    Vertical {
        pitch_rad,
        thrust: clamp(thrust, limits.min_thrust, limits.max_thrust),
        altitude: r.pi,
        tecs: reset(),
    }
}

// What the vertical law would answer and store.
#[tactic(auto, unfolding(crate::specs::Plane::vertical))]
fn vertical_of(law: VerticalLaw, g: &PlaneGuidance, call: WaypointCall) -> Vertical
    ensures { result ≡ spec.vertical law g.now.config g.now.altitude g.now.tecs call.dt call.command call.state call.cap }
{
    match law {
        VerticalLaw::Energy => on_path(energy_step(
            g.tecs,
            g.config.tecs,
            limits_of(g.config, call.cap),
            inputs_of(call),
        )),
        VerticalLaw::Hold => on_path(hold(g.tecs, limits_of(g.config, call.cap))),
        VerticalLaw::Fallback => fallback(g, call),
    }
}

// x - x is +0 for a finite x and NaN otherwise, and a sum of these is 0 exactly where each is. One test in place of ten branches, and
// the sum is a tree, since in a chain each number would wait for the one before it.
#[tactic(auto, using(crate::proofs::waypoint::Finite::all_zero), unfolding(crate::specs::Plane::all_finite))]
fn all_finite(v: Vertical) -> bool
    ensures { result ≡ spec.all_finite v }
{
    let t = v.tecs;
    let d = t.demand;
    let zero = |x: f32| x - x;
    ((zero(v.pitch_rad) + zero(v.thrust)) + (zero(v.altitude.integral) + zero(d.slewed_height_m)))
        + ((zero(d.height_m) + zero(d.airspeed_mps))
            + (zero(t.pitch_integral_rad) + zero(t.thrust_integral)))
        + (zero(t.filtered_airspeed_mps) + zero(t.steady_accel_mps2))
        == 0.0
}

// A refusal returns the guidance as it was.
pub fn refusal(g: PlaneGuidance, why: Refusal) -> Guided
    ensures { result ≡ spec.refusal g why }
{
    Guided {
        guidance: g,
        answer: Err(why),
    }
}

// The answer, and the guidance with what the vertical law stores; number 4 where a number would not be finite.
fn settled(
    g: PlaneGuidance,
    regime: FlightRegime,
    lateral: Steered,
    law: VerticalLaw,
    v: Vertical,
) -> Guided
    ensures { result ≡ spec.settled g regime lateral law v }
{
    if !all_finite(v) {
        return refusal(g, Refusal::NotFinite);
    }
    Guided {
        guidance: PlaneGuidance {
            requested: regime as u32,
            altitude: v.altitude,
            tecs: v.tecs,
            ..g
        },
        answer: Ok(Answer::Waypoint(WaypointAnswer {
            setpoint: Setpoint::Plane {
                roll_rad: lateral.roll_rad,
                pitch_rad: v.pitch_rad,
                thrust: v.thrust,
            },
            laws: Laws {
                lateral: lateral.law,
                vertical: law,
            },
            cross_track_m: lateral.cross_track_m,
        })),
    }
}

// The lateral law stands last where no other number waits for it, so that a processor goes on to the next call meanwhile, and first for
// steps that follow each other: there the next position and velocity, and so the next step, wait for the roll.
#[tactic(auto, unfolding(crate::specs::Plane::waypoint))]
pub fn waypoint<const ROLL_FIRST: bool>(g: PlaneGuidance, call: WaypointCall) -> Guided
    ensures { result ≡ spec.waypoint g call.dt call.regime call.command call.state call.cap }
{
    if bad_cap(call.cap) {
        return refusal(g, Refusal::PitchCap);
    }
    if ROLL_FIRST {
        let lateral = steered(g.config, call.command, call.state);
        let law = vertical_law(call);
        let v = vertical_of(law, &g, call);
        settled(g, call.regime, lateral, law, v)
    } else {
        let law = vertical_law(call);
        let v = vertical_of(law, &g, call);
        let lateral = steered(g.config, call.command, call.state);
        settled(g, call.regime, lateral, law, v)
    }
}
