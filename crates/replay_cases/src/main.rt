// Replays the recordings of data/ and compares each text with the oracle's (tools/vectors/replay.py makes both files).
// Each is replayed into a buffer with room to spare, into one that its text just fills, and into one that is a byte short.
#![tactic(auto)]

ghost use Rattle.std.specs.Prelude.{◌≤◌, length, IfOk};

use input::input_room;
use reading::read_full;
use refusals::Refusal;
use std::rt::Files;
use std::{fs, io};

// A recording, by the names of its case and of its two files.
#[derive(Clone, Copy)]
struct Case {
    name: &'static str,
    recording: &'static str,
    lines: &'static str,
}

macro_rules! case {
    ($name:literal) => {
        Case {
            name: $name,
            recording: concat!($name, ".recording"),
            lines: concat!($name, ".lines"),
        }
    };
}

const CASES: [Case; 38] = [
    // Configurations that are cut.
    case!("empty"),
    case!("one_byte"),
    case!("map_cut"),
    case!("config_alone"),
    case!("config_cut"),
    // Configurations that are refused.
    case!("config_unnamed"),
    case!("config_unnamed_cut"),
    case!("config_refused_1"),
    case!("config_refused_23"),
    case!("config_refused_33"),
    // Limits that cross each other, and a configuration with all its fields.
    case!("config_refused_34"),
    case!("config_refused_35"),
    case!("config_both_crossed"),
    case!("config_equal"),
    case!("config_bad_and_cut"),
    case!("config_whole"),
    // Calls.
    case!("stray_1"),
    case!("stray_3"),
    case!("forms"),
    case!("number_4"),
    case!("cut"),
    // Kinds and regimes that there are not.
    case!("kind_7"),
    case!("kind_9_cut"),
    case!("regime_2"),
    case!("no_kind"),
    // Maps that are refused.
    case!("half_leg"),
    case!("other_half_leg"),
    case!("unnamed_22"),
    case!("unnamed_31_cut"),
    // As many calls as a recording may hold, and more.
    case!("calls_4096"),
    case!("calls_4096_and_1_byte"),
    case!("calls_4097"),
    case!("call_4096_bad"),
    // Drawn by a seed.
    case!("flights_3"),
    case!("ties_4"),
    case!("wild_5"),
    case!("damaged_6"),
    case!("damaged_7"),
];

// What stands in a buffer before a replay.
const FILL: u8 = 165;

// Room for every text, and a byte to spare.
const TEXT_ROOM: usize = replay::TEXT_ROOM + 1;

// Whether every byte is as it was before the replay.
fn is_kept(s: &[u8]) -> bool {
    s.iter().all(|b| *b == FILL)
}

// Whether a replay into a buffer gives these lines, or is refused where it has no room for them.
fn is_right(recording: &[u8], lines: &[u8], out: &mut [u8]) -> bool {
    let room = out.len();
    let size = lines.len();
    match replay::replay(recording, out) {
        Ok(n) => n == size && out.starts_with(lines) && is_kept(&out[size..]),
        Err(why) => why == Refusal::TooLittleRoom && room < size && is_kept(out),
    }
}

// Recording and lines go in apart, here and beside: a struct would be made once and taken apart in each.
fn fits(recording: &[u8], lines: &[u8], room: usize) -> bool {
    let mut out = [FILL; TEXT_ROOM];
    room <= TEXT_ROOM && is_right(recording, lines, &mut out[..room])
}

fn agrees(recording: &[u8], lines: &[u8]) -> bool {
    let n = lines.len();
    let short = n.saturating_sub(1);
    fits(recording, lines, TEXT_ROOM) && fits(recording, lines, n) && fits(recording, lines, short)
}

// Reads a file to its end. One that is missing has no bytes; to agree it is a read that failed.
fn read_file<R: Files>(rt: &R, path: &str, room: &mut [u8]) -> io::Result<usize>
    ensures { IfOk result (λ n. n ≤ length room.old) }
{
    match fs::open(rt, path) {
        Ok(mut file) => Ok(read_full(&mut file, room)?),
        Err(_) => Ok(0),
    }
}

fn try_case<R: Files + Print>(rt: &R, case: Case) -> io::Result<()> {
    let mut s = input_room();
    let n = read_file(rt, case.recording, &mut s)?;
    let mut t = [FILL; TEXT_ROOM];
    let m = read_file(rt, case.lines, &mut t)?;
    let said = if agrees(&s[..n], &t[..m]) {
        "agrees"
    } else {
        "differs"
    };
    println!(rt; "{} {said}", case.name)
}

fn main(rt: HostRuntime) -> io::Result<()> {
    for case in CASES {
        try_case(&rt, case)?;
    }
    Ok(())
}
