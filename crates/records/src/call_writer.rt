// The writer of a call record.
ghost use Rattle.std.specs.Prelude.{◌≡◌, false, ◌∷◌, ◌++◌, ◌≤◌, ◌<◌, ◌+◌, ◌*◌, ◌%◌, ◌^◌, length, drop, replicate};
ghost use Rattle.fields.specs.Bytes.{bytes_of, put_at};
ghost use Rattle.fields.specs.Fields.{place_after, size_of, map_of, body_of, number_fields};
ghost use Rattle.fields.specs.Numbers.{bits_of};
ghost use Rattle.fields.specs.Writing.{answer_of, buffer_of};
ghost use Rattle.records.specs.Call as spec;
ghost use Rattle.records.specs.Code.Steps.{map_with, record_of, bytes_of_record, byte_of};

use crate::call::{Call, Kind, fields_size};
use fields::bytes::write_word;
use fields::numbers::{bits, bits_of};
use fields::part::check_room;
use fields::{changed, map_of, write_values};
use laws::types::{FlightRegime, VehicleState, WaypointCommand};
use refusals::Refusal;

// What a record has of a call: the kind, the regime, the numbers of bits 2 to 21, and which of these are written whatever
// their values. Two lists, since the record's body is made of the first alone.
#[derive(Clone, Copy)]
pub struct Parts {
    pub kind: Kind,
    pub regime: FlightRegime,
    pub numbers: [f32; 20],
    pub keeps: [bool; 20],
}

// The parts of a command that is no waypoint; its numbers are bits 3 to 6.
#[tactic(auto, unfolding(crate::specs::Call::command_parts))]
fn command_parts(kind: Kind, regime: FlightRegime, dt: f32, command: [f32; 4]) -> Parts
    ensures { result ≡ spec.command_parts kind regime dt command }
{
    let mut numbers = [0.0; 20];
    // One by one: copied as a slice, they made the writer slower.
    numbers[0] = dt;
    numbers[1] = command[0];
    numbers[2] = command[1];
    numbers[3] = command[2];
    numbers[4] = command[3];
    Parts {
        kind,
        regime,
        numbers,
        keeps: [false; 20],
    }
}

// The parts of a waypoint, whose fields are the call's.
#[tactic(auto, unfolding(crate::specs::Call::waypoint_parts))]
fn waypoint_parts(
    regime: FlightRegime,
    dt: f32,
    c: WaypointCommand,
    s: VehicleState,
    cap: Option<f32>,
) -> Parts
    ensures { result ≡ spec.waypoint_parts regime dt c s cap }
{
    let (north, east) = c.velocity_mps.map_or((0.0, 0.0), |leg| (leg.x, leg.y));
    let mut keeps = [false; 20];
    keeps[7] = c.velocity_mps.is_some();
    keeps[8] = keeps[7];
    keeps[18] = s.airspeed_mps.is_some();
    keeps[19] = cap.is_some();
    Parts {
        kind: Kind::Waypoint,
        regime,
        numbers: [
            dt,
            0.0,
            0.0,
            0.0,
            0.0,
            c.position_m.x,
            c.position_m.y,
            north,
            east,
            c.altitude_m,
            c.cruise_speed_mps,
            s.position_m.x,
            s.position_m.y,
            s.position_m.z,
            s.velocity_mps.x,
            s.velocity_mps.y,
            s.velocity_mps.z,
            s.roll_rad,
            s.airspeed_mps.unwrap_or(0.0),
            cap.unwrap_or(0.0),
        ],
        keeps,
    }
}

// No From, here and below: contracts and laws cite the name.
#[tactic(auto, unfolding(crate::specs::Call::parts_of))]
pub fn parts_of(call: Call) -> Parts
    ensures { result ≡ spec.parts_of call }
{
    match call {
        Call::Prime => command_parts(Kind::Prime, FlightRegime::Plane, 0.0, [0.0; 4]),
        Call::Attitude {
            regime,
            dt,
            command: c,
        } => command_parts(
            Kind::Attitude,
            regime,
            dt,
            [c.roll, c.pitch, c.throttle, 0.0],
        ),
        Call::Rate {
            regime,
            dt,
            command: c,
        } => command_parts(
            Kind::Rate,
            regime,
            dt,
            [c.roll_rate, c.pitch_rate, c.yaw_rate, c.throttle],
        ),
        Call::Waypoint {
            regime,
            dt,
            command,
            state,
            cap,
        } => waypoint_parts(regime, dt, command, state, cap),
        Call::AbsoluteAttitude {
            regime,
            dt,
            command: c,
        } => command_parts(
            Kind::AbsoluteAttitude,
            regime,
            dt,
            [c.roll_rad, c.pitch_rad, c.thrust, 0.0],
        ),
        Call::Land { regime, dt } => command_parts(Kind::Land, regime, dt, [0.0; 4]),
        Call::AbsoluteRate {
            regime,
            dt,
            command: c,
        } => command_parts(
            Kind::AbsoluteRate,
            regime,
            dt,
            [c.roll_radps, c.pitch_radps, c.yaw_radps, c.thrust],
        ),
    }
}

// The bits of the numbers of a command that is no waypoint: those from the sixth on are +0. Beside `bits_of`, and `command_map` beside
// `waypoint_map`, for speed: five numbers in place of twenty.
fn command_bits(v: [f32; 20]) -> [u32; 20]
    requires { drop 5 v ≡ replicate 15 spec.zero }
    ensures { result ≡ bits_of v }
{
    let mut b = [0u32; 20];
    bits(&v[..5], &mut b[..5]);
    b
}

// The map of what is written: the kind, a regime that is not plane, and the numbers of a map.
fn whole_map(regime: FlightRegime, numbers: u64) -> u64
    requires { numbers < 2 ^ 40 }
    ensures { result ≡ map_with regime numbers }
{
    let copter = u64::from(regime == FlightRegime::Copter);
    1 + 2 * (copter + 2 * numbers)
}

// The map of a waypoint's record: the numbers that are kept or that missing would not give.
fn waypoint_map(regime: FlightRegime, keeps: [bool; 20], v: [u32; 20]) -> u64
    ensures { result ≡ map_with regime (map_of (number_fields (replicate 20 0)) keeps v) }
{
    let missing = [0u32; 20];
    let numbers = map_of(&keeps, &v, &missing);
    whole_map(regime, numbers)
}

// The map of another command's record: of its first five numbers, those that missing would not give.
fn command_map(regime: FlightRegime, v: [u32; 20]) -> u64
    requires { drop 5 v ≡ replicate 15 0 }
    ensures { result ≡ map_with regime (map_of (number_fields (replicate 20 0)) (replicate 20 false) v) }
{
    let missing = [0u32; 5];
    let numbers = changed(&v[..5], &missing);
    whole_map(regime, numbers)
}

// The map of a record and the values of its fields.
#[derive(Clone, Copy)]
struct Record {
    map: u64,
    kind: Kind,
    regime: FlightRegime,
    numbers: [u32; 20],
}

fn record_of(call: Call) -> Record
    ensures { result ≡ record_of (spec.parts_of call) }
{
    let Parts {
        kind,
        regime,
        numbers,
        keeps,
    } = parts_of(call);
    if kind == Kind::Waypoint {
        let numbers = bits_of(numbers);
        return Record {
            map: waypoint_map(regime, keeps, numbers),
            kind,
            regime,
            numbers,
        };
    }
    let numbers = command_bits(numbers);
    Record {
        map: command_map(regime, numbers),
        kind,
        regime,
        numbers,
    }
}

// Writes a field of one byte where its bit, the lowest of a map, stands; the place after it. The map as it is: a caller shifts it alone.
fn write_byte(part: &mut [u8], at: usize, map: u64, value: u8) -> usize
    requires { at + map % 2 ≤ length part.old }
    ensures { (part.new ≡ put_at part.old at (byte_of map value)) × (result ≡ at + map % 2) }
{
    if map % 2 == 0 {
        return at;
    }
    part[at] = value;
    at + 1
}

// Writes the numbers of bits 2 to 21 that stand; map has them from its lowest bit on.
fn write_numbers(part: &mut [u8], from: usize, map: u64, v: &[u32; 20])
    requires { place_after from 20 map ≤ length part.old }
    ensures { part.new ≡ put_at part.old from (body_of (number_fields v.now) map v.now) }
{
    if map < 32 {
        write_values(part, from, map, &v[..5]);
    } else {
        write_values(part, from, map, v);
    }
}

// Writes the map and the fields that stand in it.
fn write_fields(part: &mut [u8], r: &Record)
    requires { (4 + size_of spec.call_fields r.now.map ≤ length part.old) × (r.now.map < 2 ^ 32) }
    ensures { part.new ≡ put_at part.old 0 (bytes_of_record r.now) }
{
    write_word(part, r.map as u32);
    let second = write_byte(part, 4, r.map, r.kind.number());
    let third = write_byte(part, second, r.map / 2, r.regime as u8);
    write_numbers(part, third, r.map / 4, &r.numbers);
}

pub fn write_call(out: &mut [u8], at: usize, call: Call) -> Result<usize, Refusal>
    ensures { (result ≡ answer_of out.old at (spec.call_record call)) × (out.new ≡ buffer_of out.old at (spec.call_record call)) }
{
    let record = record_of(call);
    let size = 4 + fields_size(record.map);
    check_room(out, at, size)?;
    write_fields(&mut out[at..], &record);
    Ok(at + size)
}
