// The call record, a 4-byte map, then fields by bit: what it holds, and its reader.
ghost use Rattle.std.specs.Prelude.{◌≡◌, ◌≤◌, ◌<◌, ◌+◌, ◌*◌, ◌/◌, ◌%◌, ◌^◌, length, MatchResult, Ok, Err};
ghost use Rattle.fields.specs.Fields.{bit, place_after, size_of};
ghost use Rattle.records.specs.Call as spec;
ghost use Rattle.records.specs.Code.Steps.{regime_read, regime_at, floats_at, call_from};

use arithmetic::vector::Vec2;
use fields::bytes::read_word;
use fields::numbers::read_group;
use fields::part::bytes_from;
use fields::{count, read_values};
use laws::types::{
    AbsoluteAttitudeCommand, AbsoluteRateCommand, AttitudeCommand, FlightRegime, RateCommand, Vec3,
    VehicleState, WaypointCommand,
};
use refusals::Refusal;

// The bits of the map that are looked at alone: 2 to 21 are numbers, of these 9 and 10 the leg.
const KIND: u32 = 0;

const REGIME: u32 = 1;

const LEG_NORTH: u32 = 9;

const LEG_EAST: u32 = 10;

const AIRSPEED: u32 = 20;

const CAP: u32 = 21;

const FIRST_NUMBER: u64 = 1 << 2;

const FIRST_UNNAMED: u64 = 1 << 22;

// 2 to the count of the numbers: what bits 2 to 21 of a map come to is below it.
const ALL_NUMBERS: u64 = 1 << 20;

// The kinds of calls, in the order of their numbers.
#[derive(Clone, Copy, PartialEq, Eq)]
pub enum Kind {
    Prime,
    Attitude,
    Rate,
    Waypoint,
    AbsoluteAttitude,
    Land,
    AbsoluteRate,
}

impl TryFrom<u32> for Kind {
    type Error = Refusal;

    ghost try_from_gives = { λ number r. r ≡ spec.kind_of number };

    fn try_from(number: u32) -> Result<Kind, Refusal> {
        match number {
            0 => Ok(Kind::Prime),
            1 => Ok(Kind::Attitude),
            2 => Ok(Kind::Rate),
            3 => Ok(Kind::Waypoint),
            4 => Ok(Kind::AbsoluteAttitude),
            5 => Ok(Kind::Land),
            6 => Ok(Kind::AbsoluteRate),
            _ => Err(Refusal::UnknownKind),
        }
    }
}

impl Kind {
    // No From, as for `Refusal::number`: `into()` does not say that the number is meant.
    pub fn number(self) -> u8
        ensures { result ≡ spec.number_of self }
    {
        self as u8
    }
}

// A call by its kind, with what the kind uses. Fields and no `GuideCall`: records know no guidance.
#[derive(Clone, Copy)]
pub enum Call {
    Prime,
    Attitude {
        regime: FlightRegime,
        dt: f32,
        command: AttitudeCommand,
    },
    Rate {
        regime: FlightRegime,
        dt: f32,
        command: RateCommand,
    },
    Waypoint {
        regime: FlightRegime,
        dt: f32,
        command: WaypointCommand,
        state: VehicleState,
        cap: Option<f32>,
    },
    AbsoluteAttitude {
        regime: FlightRegime,
        dt: f32,
        command: AbsoluteAttitudeCommand,
    },
    Land {
        regime: FlightRegime,
        dt: f32,
    },
    AbsoluteRate {
        regime: FlightRegime,
        dt: f32,
        command: AbsoluteRateCommand,
    },
}

// A call that was read, and the place after its record. Not one generic struct with `ReadConfig`: the field's name says what was read.
#[derive(Clone, Copy)]
pub struct ReadCall {
    pub call: Call,
    pub next: usize,
}

// Whether bit n of a map stands.
pub fn stands(map: u64, n: u32) -> bool
    requires { n < 64 }
    ensures { result ≡ bit n map }
{
    map >> n & 1 == 1
}

// What refusal 6 asks of a map: no unnamed bit, the kind bit, both parts of a leg or neither.
#[tactic(auto, using(crate::proofs::CallLaw::complete_is))]
pub fn is_complete(map: u64) -> bool
    ensures { result ≡ spec.complete map }
{
    (map < FIRST_UNNAMED) & stands(map, KIND) & (stands(map, LEG_NORTH) == stands(map, LEG_EAST))
}

// The byte count of the fields that stand in a map.
pub fn fields_size(map: u64) -> usize
    ensures { (result ≡ size_of spec.call_fields map) × (result ≤ 82) }
{
    usize::from(stands(map, KIND))
        + usize::from(stands(map, REGIME))
        + 4 * count(map / FIRST_NUMBER % ALL_NUMBERS)
}

// The regime of a record, whose byte is missing where it is plane.
fn read_regime(bytes: &[u8], map: u64) -> Result<FlightRegime, Refusal>
    requires { 5 + map / 2 % 2 ≤ length bytes.now }
    ensures { result ≡ regime_read (regime_at bytes.now map) }
{
    if !stands(map, REGIME) {
        return Ok(FlightRegime::Plane);
    }
    FlightRegime::try_from(u32::from(bytes[5])).map_err(|_| Refusal::UnknownKind)
}

// What a record says besides its numbers, the place of these, and the place after the record. A place and no slice of the numbers: the
// contract says what is read of s, and of a slice it would have to say where in s it begins.
#[derive(Clone, Copy)]
struct Head {
    map: u64,
    kind: Kind,
    regime: FlightRegime,
    numbers: usize,
    next: usize,
}

// Reads all of a record but its numbers.
#[inline(always)]
fn read_head(s: &[u8], at: usize) -> Result<Head, Refusal>
    ensures { MatchResult result
        (λ h. (spec.read_call s.now at ≡ Ok (call_from s.now h)) × (place_after h.numbers 20 (h.map / 4) ≤ length s.now))
        (λ e. spec.read_call s.now at ≡ Err e) }
{
    let start = bytes_from(s, at, 4)?;
    let map = u64::from(read_word(start));
    if !is_complete(map) {
        return Err(Refusal::UnknownMap);
    }
    let size = 4 + fields_size(map);
    let record = bytes_from(s, at, size)?;
    let kind = Kind::try_from(u32::from(record[4]))?;
    let regime = read_regime(record, map)?;
    Ok(Head {
        map,
        kind,
        regime,
        numbers: at + 5 + usize::from(stands(map, REGIME)),
        next: at + size,
    })
}

// Bits 7 to 12.
#[tactic(auto, unfolding(crate::specs::Call::waypoint_at, crate::specs::Call::leg_of))]
fn waypoint_of(map: u64, v: [f32; 20]) -> WaypointCommand
    ensures { result ≡ spec.waypoint_at map v }
{
    WaypointCommand {
        position_m: Vec2 { x: v[5], y: v[6] },
        velocity_mps: stands(map, LEG_NORTH).then_some(Vec2 { x: v[7], y: v[8] }),
        altitude_m: v[9],
        cruise_speed_mps: v[10],
    }
}

// Bits 13 to 20.
#[tactic(auto, unfolding(crate::specs::Call::state_at, crate::specs::Call::option_of))]
fn state_of(map: u64, v: [f32; 20]) -> VehicleState
    ensures { result ≡ spec.state_at map v }
{
    VehicleState {
        position_m: Vec3 {
            x: v[11],
            y: v[12],
            z: v[13],
        },
        velocity_mps: Vec3 {
            x: v[14],
            y: v[15],
            z: v[16],
        },
        roll_rad: v[17],
        airspeed_mps: stands(map, AIRSPEED).then_some(v[18]),
    }
}

impl Head {
    // The call; v has the numbers of bits 2 to 21.
    #[tactic(auto, unfolding(crate::specs::Call::call_at, crate::specs::Call::attitude_at, crate::specs::Call::rate_at, crate::specs::Call::absolute_attitude_at, crate::specs::Call::absolute_rate_at, crate::specs::Call::option_of))]
    fn call(self, v: [f32; 20]) -> Call
        ensures { result ≡ spec.call_at (spec.number_of self.kind) self.regime self.map v }
    {
        let regime = self.regime;
        let dt = v[0];
        match self.kind {
            Kind::Prime => Call::Prime,
            Kind::Attitude => Call::Attitude {
                regime,
                dt,
                command: AttitudeCommand {
                    throttle: v[3],
                    roll: v[1],
                    pitch: v[2],
                },
            },
            Kind::Rate => Call::Rate {
                regime,
                dt,
                command: RateCommand {
                    throttle: v[4],
                    roll_rate: v[1],
                    pitch_rate: v[2],
                    yaw_rate: v[3],
                },
            },
            Kind::Waypoint => Call::Waypoint {
                regime,
                dt,
                command: waypoint_of(self.map, v),
                state: state_of(self.map, v),
                cap: stands(self.map, CAP).then_some(v[19]),
            },
            Kind::AbsoluteAttitude => Call::AbsoluteAttitude {
                regime,
                dt,
                command: AbsoluteAttitudeCommand {
                    roll_rad: v[1],
                    pitch_rad: v[2],
                    thrust: v[3],
                },
            },
            Kind::Land => Call::Land { regime, dt },
            Kind::AbsoluteRate => Call::AbsoluteRate {
                regime,
                dt,
                command: AbsoluteRateCommand {
                    roll_radps: v[1],
                    pitch_radps: v[2],
                    yaw_radps: v[3],
                    thrust: v[4],
                },
            },
        }
    }
}

// Reads the first numbers of bits 2 to 21, where none after them stands.
fn read_first<const N: usize>(s: &[u8], from: usize, map: u64) -> [f32; 20]
    requires { (N ≤ 20) × (map < 2 ^ N) × (place_after from 20 map ≤ length s.now) }
    ensures { result ≡ floats_at s.now from map }
{
    let mut v = [0.0f32; 20];
    read_values(s, from, map, &mut v[..N]);
    v
}

// Where the groups of a waypoint's numbers begin, in a map whose lowest bit is the first number's, and the widths of their maps.
const POINT: u64 = 1 << 5;

const LEG: u64 = 1 << 7;

const ALTITUDE: u64 = 1 << 9;

const OPTIONAL: u64 = 1 << 18;

const PAIR: u64 = 1 << 2;

const NINE: u64 = 1 << 9;

// The maps of a pair and of a nine of which each stands.
const WHOLE_PAIR: u64 = (1 << 2) - 1;

const WHOLE_NINE: u64 = (1 << 9) - 1;

// Reads the numbers of bits 2 to 21 by groups, which as a rule stand whole: the command's, point, leg, altitude to roll, and
// the two that may be absent.
fn read_waypoint(s: &[u8], from: usize, map: u64) -> [f32; 20]
    requires { place_after from 20 map ≤ length s.now }
    ensures { result ≡ floats_at s.now from map }
{
    let mut v = [0.0f32; 20];
    let second = read_values(s, from, map % 32, &mut v[..5]);
    let third = read_group(s, second, map / POINT % PAIR, WHOLE_PAIR, &mut v[5..7]);
    let fourth = read_group(s, third, map / LEG % PAIR, WHOLE_PAIR, &mut v[7..9]);
    let fifth = read_group(s, fourth, map / ALTITUDE % NINE, WHOLE_NINE, &mut v[9..18]);
    read_values(s, fifth, map / OPTIONAL % PAIR, &mut v[18..20]);
    v
}

// Reads the numbers of bits 2 to 21; map has them from its lowest bit on. As a rule a call that is no waypoint has no number after bit 6,
// and a prime or a land none after bit 2: fewer bits to test and fewer numbers to make. Bytes, place and map go in apart, as in fields'
// `read_values`.
fn read_numbers(s: &[u8], from: usize, map: u64) -> [f32; 20]
    requires { place_after from 20 map ≤ length s.now }
    ensures { result ≡ floats_at s.now from map }
{
    if map < 2 {
        return read_first::<1>(s, from, map);
    }
    if map < 32 {
        return read_first::<5>(s, from, map);
    }
    read_waypoint(s, from, map)
}

pub fn read_call(s: &[u8], at: usize) -> Result<ReadCall, Refusal>
    ensures { result ≡ spec.read_call s.now at }
{
    let head = read_head(s, at)?;
    let v = read_numbers(s, head.numbers, head.map / FIRST_NUMBER);
    Ok(ReadCall {
        call: head.call(v),
        next: head.next,
    })
}

// `read_call` without the numbers, for whoever goes over a recording before it is replayed. A function of its own, so that the reader of
// such a program is called from one place and stays in line.
pub fn skip_call(s: &[u8], at: usize) -> Result<usize, Refusal>
    ensures { result ≡ spec.skipped (spec.read_call s.now at) }
{
    Ok(read_head(s, at)?.next)
}
