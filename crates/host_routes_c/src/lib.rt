// What C calls of `host_routes`, under its names and clauses: an object of its own in the archive.
#![tactic(auto)]

ghost use Rattle.std.specs.Prelude.{◌≡◌};
ghost use Rattle.host_routes.specs.Route as spec;

use guidance::plane::PlaneGuidance;
use host_answers::place::Place;
use host_routes::route::{RouteAnswer, RouteLoaded, RouteNumbers};

#[unsafe(no_mangle)]
pub extern "C" fn nuthkolla_load_route(
    caller: u32,
    bytes: &[u8],
    at: usize,
    numbers: &mut [f32],
) -> RouteLoaded
    ensures { (result ≡ spec.load_by caller bytes.now at numbers.old) × (numbers.new ≡ spec.load_buffer_by caller bytes.now at numbers.old) }
{
    host_routes::route::nuthkolla_load_route(caller, bytes, at, numbers)
}

#[unsafe(no_mangle)]
pub extern "C" fn nuthkolla_write_route(
    caller: u32,
    out: &mut [u8],
    at: usize,
    map: u64,
    numbers: &[f32],
) -> Place
    ensures { (result ≡ spec.write_by caller out.old at map numbers.now) × (out.new ≡ spec.write_buffer_by caller out.old at map numbers.now) }
{
    host_routes::route::nuthkolla_write_route(caller, out, at, map, numbers)
}

#[unsafe(no_mangle)]
pub extern "C" fn nuthkolla_run_route(
    guidance: &mut PlaneGuidance,
    caller: u32,
    call: RouteNumbers,
    numbers: &[f32],
) -> RouteAnswer
    ensures { (guidance.new ≡ (spec.run_route_by guidance.old caller call numbers.now).guidance) × (result ≡ (spec.run_route_by guidance.old caller call numbers.now).answer) }
{
    host_routes::route::nuthkolla_run_route(guidance, caller, call, numbers)
}
