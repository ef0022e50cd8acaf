// Routes for a host, which holds a route's map and number and lends the numbers of its points, four a point. The map is that of both
// maps of a record, 62 bits.
ghost use Rattle.std.specs.Prelude.{◌≡◌};
ghost use Rattle.host_routes.specs.Route as spec;

use call_numbers::{given, regime_of};
use guidance::plane::PlaneGuidance;
use host_answers::answer::{RunAnswer, of_answer};
use host_answers::place::Place;
use laws::types::{FlightRegime, Vec3, VehicleState};
use refusals::Refusal;
use rights::{Deed, may};
use route_records::{Loaded, load_route, write_route};
use routes::{Route, RouteCall, fly};

// What loading answers, for C. refusal: 0 or the refusal's number; number: 1, the point that is flown to first; next: the place
// after the record. Refused, all but the refusal are 0.
#[repr(C)]
#[derive(Clone, Copy, Default)]
pub struct RouteLoaded {
    pub refusal: u32,
    pub number: u32,
    pub map: u64,
    pub next: usize,
}

// A route call as numbers, for C: the route's map and number, and what comes with the call. has_airspeed, has_cap: flags, 0 or not 0.
#[repr(C)]
#[derive(Clone, Copy)]
pub struct RouteNumbers {
    pub map: u64,
    pub number: u32,
    pub regime: u32,
    pub dt: f32,
    pub position_m: Vec3,
    pub velocity_mps: Vec3,
    pub roll_rad: f32,
    pub has_airspeed: u32,
    pub airspeed_mps: f32,
    pub has_cap: u32,
    pub pitch_cap_rad: f32,
}

// The answer, for C, whose place is 0, and the route's number after the call.
#[repr(C)]
#[derive(Clone, Copy)]
pub struct RouteAnswer {
    pub answer: RunAnswer,
    pub number: u32,
}

// The guidance after a route call, and the call's answer.
#[derive(Clone, Copy)]
pub struct RouteRan {
    pub guidance: PlaneGuidance,
    pub answer: RouteAnswer,
}

impl From<Result<Loaded, Refusal>> for RouteLoaded {
    ghost from_gives = { λ loaded answer. answer ≡ spec.loaded_of loaded };

    fn from(loaded: Result<Loaded, Refusal>) -> RouteLoaded {
        match loaded {
            Ok(route) => RouteLoaded {
                number: 1,
                map: route.map,
                next: route.next,
                ..RouteLoaded::default()
            },
            Err(why) => RouteLoaded {
                refusal: why.number(),
                ..RouteLoaded::default()
            },
        }
    }
}

// Number 13 comes before every other check here and below, of the bytes too.
#[tactic(auto, unfolding(crate::specs::Route::load_by, crate::specs::Route::load_buffer_by))]
pub fn nuthkolla_load_route(
    caller: u32,
    bytes: &[u8],
    at: usize,
    numbers: &mut [f32],
) -> RouteLoaded
    ensures { (result ≡ spec.load_by caller bytes.now at numbers.old) × (numbers.new ≡ spec.load_buffer_by caller bytes.now at numbers.old) }
{
    if may(caller, Deed::LoadRoute) {
        return load_route(bytes, at, numbers).into();
    }
    Err(Refusal::NoRight).into()
}

#[tactic(auto, unfolding(crate::specs::Route::write_by, crate::specs::Route::write_buffer_by))]
pub fn nuthkolla_write_route(
    caller: u32,
    out: &mut [u8],
    at: usize,
    map: u64,
    numbers: &[f32],
) -> Place
    ensures { (result ≡ spec.write_by caller out.old at map numbers.now) × (out.new ≡ spec.write_buffer_by caller out.old at map numbers.now) }
{
    if may(caller, Deed::WriteRoute) {
        return write_route(out, at, map, numbers).into();
    }
    Err(Refusal::NoRight).into()
}

// The route and the call of a host's numbers. No From: the numbers name a route and a call. Sensors and cap are read as `waypoint_call_of`
// reads its own: a shared function would take the six numbers one by one.
fn route_of(k: RouteNumbers) -> Route
    ensures { result ≡ spec.route_of k }
{
    Route {
        map: k.map,
        number: k.number,
    }
}

#[tactic(auto, unfolding(crate::specs::Route::route_call_of))]
fn route_call_of(k: RouteNumbers) -> RouteCall
    ensures { result ≡ spec.route_call_of k }
{
    RouteCall {
        dt: k.dt,
        regime: regime_of(k.regime),
        command: (),
        state: VehicleState {
            position_m: k.position_m,
            velocity_mps: k.velocity_mps,
            roll_rad: k.roll_rad,
            airspeed_mps: given(k.has_airspeed, k.airspeed_mps),
        },
        cap: given(k.has_cap, k.pitch_cap_rad),
    }
}

// A refused call, which keeps the guidance and the route's number.
fn refused(g: PlaneGuidance, k: RouteNumbers, why: Refusal) -> RouteRan
    ensures { result ≡ spec.refused g k why }
{
    RouteRan {
        guidance: g,
        answer: RouteAnswer {
            answer: of_answer(Err(why), 0),
            number: k.number,
        },
    }
}

#[tactic(auto, unfolding(crate::specs::Route::run_route))]
pub fn run_route(g: PlaneGuidance, k: RouteNumbers, numbers: &[f32]) -> RouteRan
    ensures { result ≡ spec.run_route g k numbers.now }
{
    if FlightRegime::try_from(k.regime).is_err() {
        return refused(g, k, Refusal::UnknownKind);
    }
    let done = fly(g, route_of(k), numbers, route_call_of(k));
    RouteRan {
        guidance: done.guidance,
        answer: RouteAnswer {
            answer: of_answer(done.answer, 0),
            number: done.number,
        },
    }
}

#[tactic(auto, unfolding(crate::specs::Route::run_route_by))]
pub fn run_route_by(g: PlaneGuidance, caller: u32, k: RouteNumbers, numbers: &[f32]) -> RouteRan
    ensures { result ≡ spec.run_route_by g caller k numbers.now }
{
    if may(caller, Deed::RouteCall) {
        return run_route(g, k, numbers);
    }
    refused(g, k, Refusal::NoRight)
}

pub fn nuthkolla_run_route(
    guidance: &mut PlaneGuidance,
    caller: u32,
    call: RouteNumbers,
    numbers: &[f32],
) -> RouteAnswer
    ensures { (guidance.new ≡ (spec.run_route_by guidance.old caller call numbers.now).guidance) × (result ≡ (spec.run_route_by guidance.old caller call numbers.now).answer) }
{
    let g = *guidance;
    let r = run_route_by(g, caller, call, numbers);
    guidance.take_over(r.guidance);
    r.answer
}
