// Replays the oracle's fixed list, as tools/vectors/guidance.py writes it, and counts the rows whose answer and stored state are
// the row's, bit for bit, every NaN alike.
#![tactic(auto)]

mod calls;
mod check;

use case_rows::{Count, try_group};
use guidance::plane::{Former, PlaneGuidance};
use laws::config::PlaneGuidanceConfig;
use laws::navigation::PiLoop;
use laws::tecs;
use laws::types::FlightRegime;
use std::io;
use std::rt::Files;

// The words of a row.
const WORDS: usize = 53;

// The files of rows, in the order in which they are tried.
const GROUPS: [&str; 19] = [
    "configurations",
    "past_the_limit",
    "airspeed_1e30_weight_0",
    "airspeed_1e30",
    "caps",
    "desk_example",
    "holds",
    "idle",
    "off",
    "refusals",
    "speed_demand",
    "sticks",
    "ties_by_hand",
    "underspeed",
    "flights",
    "settings",
    "takings_back",
    "ties",
    "wild",
];

// The guidance before a file's first `new`: the default configuration's.
fn start() -> PlaneGuidance {
    PlaneGuidance {
        config: PlaneGuidanceConfig::default(),
        requested: FlightRegime::Plane as u32,
        altitude: PiLoop::default(),
        tecs: tecs::reset(),
        former: Former::default(),
    }
}

// Tries the rows of one file, each on the guidance that the row before it left.
fn try_calls<R: Files + Print + Eprint>(rt: &R, name: &str) -> io::Result<Count> {
    let mut guidance = start();
    try_group(rt, name, WORDS, |row| check::try_call(row, &mut guidance))
}

fn main(rt: HostRuntime) -> io::Result<()> {
    let mut total = Count::default();
    for name in GROUPS {
        total += try_calls(&rt, name)?;
    }
    println!(rt; "total: {total}")
}
