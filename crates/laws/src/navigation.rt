// Waypoint navigation: L1 path following and loiter, and the altitude loop. x is north, y is east, right is positive.
ghost use Rattle.std.specs.Prelude.{◌≡◌};
ghost use Rattle.arithmetic.specs.Vector.{difference, normalise as unit};
ghost use Rattle.laws.specs.Navigation as spec;
ghost use Rattle.laws.specs.Code.Steering as steering;

use crate::math::{all_finite, clamp_symmetric};
use crate::types::GRAVITY;
use arithmetic::order::{choose, clamp_ordered, greatest};
use arithmetic::trigonometry::{FRAC_PI_2, FRAC_PI_4, PI, arcsine, arctangent, arctangent2, sine};
use arithmetic::vector::{Vec2, cross, difference, dot, norm, normalise};

// Below this ground speed the path has no course to compare against.
const MIN_GROUND_SPEED_MPS: f32 = 1.0;

const MAX_CAPTURE_RAD: f32 = FRAC_PI_4;

// What a lateral law answers: the acceleration in m/s² and the distance off its line in m, both right positive; idle where it gave
// up for want of a leg or a course. No Option: a caller flies and tells both zeros when idle too, and would only put them in for None.
#[derive(Clone, Copy, Default)]
pub struct Lateral {
    pub accel_mps2: f32,
    pub cross_track_m: f32,
    pub idle: bool,
}

// The L1 distance and gain for a ground speed.
#[derive(Clone, Copy)]
pub struct L1Gains {
    pub distance_m: f32,
    pub gain: f32,
}

// The line through `point` along `direction`, which has any length.
#[derive(Clone, Copy)]
pub struct Line {
    pub point: Vec2,
    pub direction: Vec2,
}

// Where the plane is and how it moves over the ground, its speed measured once for both laws.
#[derive(Clone, Copy)]
struct Motion {
    position_m: Vec2,
    velocity_mps: Vec2,
    speed_mps: f32,
}

// What L1 is tuned by.
#[derive(Clone, Copy)]
struct Tuning {
    period_s: f32,
    damping: f32,
}

// What is flown to: the leg through the point, or without a leg the loiter around it with this radius. Not an enum of the two: the guidance
// hands over both, and the leg says which.
#[derive(Clone, Copy)]
struct Waypoint {
    leg: Option<Vec2>,
    point_m: Vec2,
    radius_m: f32,
}

// A PI loop with a clamped output; it holds only its integral.
#[repr(C)]
#[derive(Clone, Copy, Default)]
pub struct PiLoop {
    pub integral: f32,
}

// One step of a PI loop: its output and the loop after it.
#[derive(Clone, Copy)]
pub struct PiResult {
    pub output: f32,
    pub pi: PiLoop,
}

#[tactic(auto, unfolding(crate::specs::Navigation::no_course))]
pub fn no_course(speed_mps: f32) -> bool
    ensures { result ≡ spec.no_course speed_mps }
{
    speed_mps.is_nan() | (speed_mps < MIN_GROUND_SPEED_MPS)
}

#[tactic(auto, unfolding(crate::specs::Navigation::l1))]
pub fn l1(ground_speed_mps: f32, period_s: f32, damping: f32) -> L1Gains
    ensures { result ≡ spec.l1 ground_speed_mps period_s damping }
{
    L1Gains {
        distance_m: damping * period_s * ground_speed_mps / PI,
        gain: 4.0 * damping * damping,
    }
}

// Past ±1 the clamped ratio's arcsine is ±FRAC_PI_2, beyond the capture's limit: no root is taken.
#[tactic(auto, using(crate::proofs::Steering::past_left, crate::proofs::Steering::past_right, crate::proofs::Steering::capture_ordered), unfolding(crate::specs::Navigation::capture, arithmetic::specs::Order::clamp))]
fn capture(cross_track_m: f32, distance_m: f32) -> f32
    ensures { result ≡ spec.capture cross_track_m distance_m }
{
    let ratio = cross_track_m / distance_m;
    if ratio < -1.0 {
        return -MAX_CAPTURE_RAD;
    }
    if ratio > 1.0 {
        return MAX_CAPTURE_RAD;
    }
    clamp_ordered(arcsine(ratio), -MAX_CAPTURE_RAD, MAX_CAPTURE_RAD)
}

// Straight back is a tie, which turns right whatever the sign of the zero.
#[tactic(auto, unfolding(crate::specs::Navigation::course))]
fn course(direction: Vec2, velocity_mps: Vec2) -> f32
    ensures { result ≡ spec.course direction velocity_mps }
{
    let side = cross(direction, velocity_mps);
    let ahead = dot(direction, velocity_mps);
    if (side == 0.0) & (ahead < 0.0) {
        return -PI;
    }
    arctangent2(side, ahead)
}

impl Lateral {
    // Where a law gives up: wings level.
    fn level(idle: bool) -> Lateral
        ensures { result ≡ spec.level idle }
    {
        Lateral {
            idle,
            ..Lateral::default()
        }
    }
}

impl Motion {
    // The law along a line whose direction is normalised (zeros where the leg's length overflows), at a speed that has a course.
    #[tactic(auto, unfolding(crate::specs::Navigation::track_along))]
    fn track_along(self, line: Line, tuning: Tuning) -> Lateral
        ensures { result ≡ steering.along_line self tuning line }
    {
        let speed_mps = self.speed_mps;
        let gains = l1(speed_mps, tuning.period_s, tuning.damping);
        let cross_track_m = cross(line.direction, difference(self.position_m, line.point));
        let capture_rad = capture(cross_track_m, gains.distance_m);
        let course_rad = course(line.direction, self.velocity_mps);
        let eta_rad = clamp_symmetric(-capture_rad - course_rad, FRAC_PI_2);
        let accel = gains.gain * speed_mps * speed_mps / gains.distance_m * sine(eta_rad);
        Lateral {
            accel_mps2: choose(accel.is_finite(), accel, 0.0),
            cross_track_m,
            idle: false,
        }
    }

    // The law along a line whose direction has any length, at a speed that has a course.
    #[tactic(auto, unfolding(crate::specs::Code::Steering::track))]
    fn track(self, line: Line, tuning: Tuning) -> Lateral
        ensures { result ≡ steering.track self tuning line.point (unit line.direction spec.least_leg) }
    {
        match normalise(line.direction, 1e-6) {
            None => Lateral::level(true),
            Some(direction) => {
                let point = line.point;
                self.track_along(Line { point, direction }, tuning)
            }
        }
    }

    // Both laws come down to one line, so that track has one place where it is called.
    #[tactic(auto, unfolding(crate::specs::Code::Steering::steer))]
    fn steer(self, waypoint: Waypoint, tuning: Tuning) -> Lateral
        ensures { result ≡ steering.steer self waypoint tuning (steering.line_of waypoint self.position_m) }
    {
        match waypoint.line(self.position_m) {
            None => Lateral {
                accel_mps2: waypoint.centripetal(self.speed_mps),
                ..Lateral::default()
            },
            Some(line) => waypoint.with_centripetal(self.speed_mps, self.track(line, tuning)),
        }
    }
}

impl Waypoint {
    // Of a loiter: NaN, or not above 0.
    #[tactic(auto, unfolding(crate::specs::Code::Steering::bad_radius))]
    fn has_bad_radius(self) -> bool
        ensures { result ≡ steering.bad_radius self.leg self.radius_m }
    {
        match self.leg {
            None => self.radius_m.is_nan() | (self.radius_m <= 0.0),
            Some(_) => false,
        }
    }

    // A loiter's tangent at the nearest point, clockwise: from north, toward east. Within 1e-3 of the centre there is none.
    #[tactic(auto, unfolding(crate::specs::Code::Steering::tangent))]
    fn tangent(self, position_m: Vec2) -> Option<Line>
        ensures { result ≡ steering.tangent self (unit (difference position_m self.point_m) spec.least_offset) }
    {
        let outward = normalise(difference(position_m, self.point_m), 1e-3)?;
        Some(Line {
            point: Vec2 {
                x: self.point_m.x + outward.x * self.radius_m,
                y: self.point_m.y + outward.y * self.radius_m,
            },
            direction: Vec2 {
                x: -outward.y,
                y: outward.x,
            },
        })
    }

    #[tactic(auto, unfolding(crate::specs::Code::Steering::line_by))]
    fn line(self, position_m: Vec2) -> Option<Line>
        ensures { result ≡ steering.line_of self position_m }
    {
        match self.leg {
            None => self.tangent(position_m),
            Some(direction) => Some(Line {
                point: self.point_m,
                direction,
            }),
        }
    }

    #[tactic(auto, unfolding(crate::specs::Navigation::centripetal))]
    fn centripetal(self, speed_mps: f32) -> f32
        ensures { result ≡ spec.centripetal speed_mps self.radius_m }
    {
        speed_mps * speed_mps / self.radius_m
    }

    // What a loiter adds to track.
    #[tactic(auto, unfolding(crate::specs::Code::Steering::with_centripetal))]
    fn with_centripetal(self, speed_mps: f32, tracked: Lateral) -> Lateral
        ensures { result ≡ steering.with_centripetal self.leg speed_mps self.radius_m tracked }
    {
        match self.leg {
            None => Lateral {
                accel_mps2: self.centripetal(speed_mps) + tracked.accel_mps2,
                cross_track_m: tracked.cross_track_m,
                idle: false,
            },
            Some(_) => tracked,
        }
    }
}

// Track along a leg, and without one a loiter around the point. Both laws in one, so that the speed is measured once. The public
// functions from here on have the Rust's own parameters, which is a rule of the project; this one has those of both its laws.
#[tactic(auto, using(crate::proofs::Steering::gives_up, crate::proofs::Steering::steers))]
pub fn lateral_accel_mps2(
    leg: Option<Vec2>,
    position_m: Vec2,
    velocity_mps: Vec2,
    point_m: Vec2,
    radius_m: f32,
    period_s: f32,
    damping: f32,
) -> Lateral
    ensures { result ≡ spec.lateral_accel leg position_m velocity_mps point_m radius_m period_s damping }
{
    let speed_mps = norm(velocity_mps);
    let waypoint = Waypoint {
        leg,
        point_m,
        radius_m,
    };
    let idle = no_course(speed_mps);
    if idle | waypoint.has_bad_radius() {
        return Lateral::level(idle);
    }
    let motion = Motion {
        position_m,
        velocity_mps,
        speed_mps,
    };
    motion.steer(waypoint, Tuning { period_s, damping })
}

#[tactic(auto, unfolding(crate::specs::Navigation::lateral_accel))]
pub fn track_accel_mps2(
    position_m: Vec2,
    velocity_mps: Vec2,
    point_m: Vec2,
    direction: Vec2,
    period_s: f32,
    damping: f32,
) -> Lateral
    ensures { result ≡ spec.track_accel position_m velocity_mps point_m direction period_s damping }
{
    let leg = Some(direction);
    lateral_accel_mps2(
        leg,
        position_m,
        velocity_mps,
        point_m,
        0.0,
        period_s,
        damping,
    )
}

#[tactic(auto, unfolding(crate::specs::Navigation::lateral_accel))]
pub fn loiter_accel_mps2(
    position_m: Vec2,
    velocity_mps: Vec2,
    center_m: Vec2,
    radius_m: f32,
    period_s: f32,
    damping: f32,
) -> Lateral
    ensures { result ≡ spec.loiter_accel position_m velocity_mps center_m radius_m period_s damping }
{
    lateral_accel_mps2(
        None,
        position_m,
        velocity_mps,
        center_m,
        radius_m,
        period_s,
        damping,
    )
}

#[tactic(auto, unfolding(crate::specs::Navigation::finite_leg))]
pub fn finite_leg(leg: Option<Vec2>) -> Option<Vec2>
    ensures { result ≡ spec.finite_leg leg }
{
    leg.filter(|v| all_finite(*v))
}

#[tactic(auto, unfolding(crate::specs::Navigation::bank_for_accel))]
pub fn bank_for_accel_rad(accel_mps2: f32) -> f32
    ensures { result ≡ spec.bank_for_accel accel_mps2 }
{
    let bank = arctangent(accel_mps2 / GRAVITY);
    choose(bank.is_finite(), bank, 0.0)
}

#[tactic(auto, unfolding(crate::specs::Navigation::pi_pinned))]
fn pi_pinned(unclamped: f32, error: f32, low: f32, high: f32) -> bool
    ensures { result ≡ spec.pi_pinned unclamped error low high }
{
    ((unclamped >= high) & (error > 0.0)) | ((unclamped <= low) & (error < 0.0))
}

// The Rust's PiLoop::step, with its parameters.
#[tactic(auto, using(crate::proofs::Ordered::greatest_ordered), unfolding(crate::specs::Navigation::pi_step, crate::specs::Navigation::pi_finite))]
pub fn pi_step(
    pi: PiLoop,
    dt: f32,
    error: f32,
    p: f32,
    i: f32,
    max_integral: f32,
    low: f32,
    high: f32,
    fallback: f32,
) -> PiResult
    ensures { result ≡ spec.pi_step pi dt error p i max_integral low high fallback }
{
    if !error.is_finite() {
        return PiResult {
            output: fallback,
            pi,
        };
    }
    let top = greatest(high, low);
    let pinned = pi_pinned(p * error + i * pi.integral, error, low, top);
    let grown = clamp_symmetric(pi.integral + error * dt, max_integral);
    let integral = choose(pinned, pi.integral, grown);
    PiResult {
        output: clamp_ordered(p * error + i * integral, low, top),
        pi: PiLoop { integral },
    }
}
