// A route flown: each call moves on by at most one point, then flies to the point that is reached.
#![tactic(auto)]

ghost use Rattle.std.specs.Prelude.{◌≡◌, ◌≤◌, ◌+◌, ◌*◌, length, IfOk, IsTrue, MatchResult};
ghost use Rattle.fields.specs.Fields.{ones};
ghost use Rattle.routes.specs.Route as spec;

use arithmetic::vector::{Vec2, difference, dot, norm};
use fields::count;
use guidance::plane::{Answer, GuideCall, Guided, PlaneGuidance};
use laws::types::{ControlInput, WaypointCommand, north_east};
use refusals::Refusal;
use route_records::check_map;

// A point of a route: metres north, east and up, and metres a second.
#[derive(Clone, Copy)]
pub struct Point {
    pub north_m: f32,
    pub east_m: f32,
    pub altitude_m: f32,
    pub cruise_speed_mps: f32,
}

// A route's map, and the number of the point that is flown to. Its points' numbers are lent, four a point.
#[derive(Clone, Copy)]
pub struct Route {
    pub map: u64,
    pub number: u32,
}

// What comes with a route call, whose waypoint the route gives.
pub type RouteCall = GuideCall<()>;

// The guidance and the route's number after a call, and the call's answer; no Result, as `Guided`.
#[derive(Clone, Copy)]
pub struct Flown {
    pub guidance: PlaneGuidance,
    pub number: u32,
    pub answer: Result<Answer, Refusal>,
}

// A route as it is flown: the numbers of its points, and the number of the point that is flown to, from 1 to one past the last.
#[derive(Clone, Copy)]
struct Course<'a> {
    points: &'a [[f32; 4]],
    number: usize,
    ghost some: { 1 ≤ length points.now },
    ghost few: { length points.now ≤ 62 },
    ghost from_one: { 1 ≤ number },
    ghost within: { number ≤ length points.now + 1 },
}

impl From<[f32; 4]> for Point {
    ghost from_gives = { λ numbers p. p ≡ spec.point_at numbers 0 };

    #[tactic(auto, unfolding(crate::specs::Route::point_at))]
    fn from(numbers: [f32; 4]) -> Point {
        let [north_m, east_m, altitude_m, cruise_speed_mps] = numbers;
        Point {
            north_m,
            east_m,
            altitude_m,
            cruise_speed_mps,
        }
    }
}

impl Point {
    fn place(self) -> Vec2
        ensures { result ≡ spec.place self }
    {
        Vec2 {
            x: self.north_m,
            y: self.east_m,
        }
    }

    // The leg from the point before.
    fn leg_from(self, before: Point) -> Vec2
        ensures { result ≡ spec.leg_to before self }
    {
        difference(self.place(), before.place())
    }

    // The position is within the loiter radius; NaN is not.
    #[tactic(auto, unfolding(crate::specs::Route::is_near))]
    fn is_near(self, position: Vec2, radius_m: f32) -> bool
        ensures { result ≡ spec.is_near self position radius_m }
    {
        norm(difference(position, self.place())) <= radius_m
    }

    // The position is abeam of the point or past it, along the leg from the one before; NaN is not.
    #[tactic(auto, unfolding(crate::specs::Route::is_passed))]
    fn is_passed(self, before: Point, position: Vec2) -> bool
        ensures { result ≡ spec.is_passed before self position }
    {
        let gone = difference(position, self.place());
        dot(self.leg_from(before), gone) >= 0.0
    }

    fn waypoint(self, leg: Option<Vec2>) -> WaypointCommand
        ensures { result ≡ spec.fly_to self leg }
    {
        WaypointCommand {
            position_m: self.place(),
            velocity_mps: leg,
            altitude_m: self.altitude_m,
            cruise_speed_mps: self.cruise_speed_mps,
        }
    }
}

impl<'a> Course<'a> {
    // The points that a route's map names among lent numbers, which are refused by the map, or where they are fewer than it demands.
    // A number of 0 counts as 1, one above one past the last point as that.
    #[tactic(auto, using(crate::proofs::PointsLaw::standing_is), unfolding(crate::specs::Route::counted, crate::specs::Route::check_lent, route_records::specs::Record::number_count))]
    fn new(route: Route, numbers: &'a [f32]) -> Result<Self, Refusal>
        ensures lent { MatchResult result (λ _. spec.check_lent route.map (length numbers.now) ≡ Ok tt) (λ why. spec.check_lent route.map (length numbers.now) ≡ Err why) }
        ensures points { IfOk result (λ c. spec.standing c.points.now ≡ spec.points_of (ones 64 route.map) numbers.now) }
        ensures number { IfOk result (λ c. c.number ≡ spec.counted (ones 64 route.map) route.number) }
    {
        check_map(route.map)?;
        let count = count(route.map);
        let (all, _) = numbers.as_chunks();
        if all.len() < count {
            return Err(Refusal::TooFewBytes);
        }
        Ok(Course {
            points: &all[..count],
            number: (route.number as usize).clamp(1, count + 1),
        })
    }

    // A point by its number, the first being 1.
    #[tactic(auto, using(crate::proofs::PointsLaw::numbered_is))]
    fn point(self, number: usize) -> Point
        requires { (1 ≤ number) × (number ≤ length self.points.now) }
        ensures { result ≡ spec.numbered (spec.standing self.entry.points.now) number }
    {
        Point::from(self.points[number - 1])
    }

    // The test by which the number rises; one past the last point it is not met.
    #[tactic(auto, unfolding(crate::specs::Route::meets))]
    fn meets(self, position: Vec2, radius_m: f32) -> bool
        ensures is { result ≡ spec.meets radius_m (spec.standing self.entry.points.now) self.entry.number position }
        ensures room { IsTrue result → self.entry.number ≤ length self.entry.points.now }
    {
        let n = self.number;
        if n == 1 {
            return self.point(1).is_near(position, radius_m);
        }
        if n <= self.points.len() {
            return self.point(n).is_passed(self.point(n - 1), position);
        }
        false
    }

    #[tactic(auto, unfolding(crate::specs::Route::reached))]
    fn reached(self, position: Vec2, radius_m: f32) -> Self
        ensures points { result.points ≡ self.entry.points }
        ensures number { result.number ≡ spec.reached radius_m (spec.standing self.entry.points.now) self.entry.number position }
    {
        if self.meets(position, radius_m) {
            return Course {
                points: self.points,
                number: self.number + 1,
            };
        }
        self
    }

    // At 1 the first point without a leg, one past the last the last point without one.
    #[tactic(auto, unfolding(crate::specs::Route::waypoint_for))]
    fn waypoint(self) -> WaypointCommand
        ensures { result ≡ spec.waypoint_for (spec.standing self.entry.points.now) self.entry.number }
    {
        let n = self.number;
        if n == 1 {
            return self.point(1).waypoint(None);
        }
        let last = self.points.len();
        if n <= last {
            let p = self.point(n);
            return p.waypoint(Some(p.leg_from(self.point(n - 1))));
        }
        self.point(last).waypoint(None)
    }
}

// A refused call keeps the number.
#[tactic(auto, unfolding(crate::specs::Route::settled))]
fn settled(kept: u32, wanted: u32, done: Guided) -> Flown
    ensures { result ≡ spec.settled kept wanted done }
{
    Flown {
        guidance: done.guidance,
        number: if done.answer.is_ok() { wanted } else { kept },
        answer: done.answer,
    }
}

#[tactic(auto, unfolding(crate::specs::Route::fly))]
pub fn fly(g: PlaneGuidance, route: Route, numbers: &[f32], call: RouteCall) -> Flown
    ensures { result ≡ spec.fly g route numbers.now call }
{
    let from = match Course::new(route, numbers) {
        Ok(course) => course,
        Err(why) => {
            return Flown {
                guidance: g,
                number: route.number,
                answer: Err(why),
            };
        }
    };
    let to = from.reached(north_east(call.state.position_m), g.config.loiter_radius_m);
    let w = to.waypoint();
    let done = g.guide_capped(
        call.dt,
        call.regime,
        ControlInput::Waypoint(w),
        call.state,
        call.cap,
    );
    settled(route.number, to.number as u32, done)
}
