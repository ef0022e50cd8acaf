// Shorter recordings: what demand 3 allows to be struck is dropped from a recording inside its buffer.
//
// Two passes. The first reads the recording to its end and touches nothing; where it finds a refusal, that is the answer.
// The second carries the calls out one after another and moves the records that stay to the front.
#![tactic(auto)]

ghost use Rattle.std.specs.Prelude.{◌≡◌, ◌≤◌, ◌-◌, length, take, drop};
ghost use Rattle.fields.specs.Bytes.{put_at};
ghost use Rattle.calls.specs.Calls.{as_reply};
ghost use Rattle.replay.specs.Recording.{ends, most_calls, read_calls, recording};
ghost use Rattle.compaction.specs.Compaction as spec;
ghost use Rattle.compaction.specs.Code.Steps as step;
ghost use Rattle.compaction.specs.Code.Steps.{Moved, Closed};

use calls::Reply;
use guidance::plane::{Answer, PlaneGuidance, VerticalLaw};
use laws::config::InvalidConfig;
use lines::Line;
use records::call::{read_call, skip_call};
use records::config::read_config;
use refusals::Refusal;
use replay::MOST_CALLS;
use replay::turn::{invalid_line, stopped_line};

// Why a recording is refused: what the desk program's text of it ends in.
#[derive(Clone, Copy, PartialEq, Eq)]
pub enum BadRecording {
    // `config refused FIELD`
    InvalidConfig(InvalidConfig),
    // `config stopped REFUSAL`
    Config(Refusal),
    // `NUMBER stopped REFUSAL`
    Call { number: u32, why: Refusal },
}

impl BadRecording {
    // The desk program's line of it.
    pub fn line(self) -> Line
        ensures { result ≡ spec.line_of self }
    {
        match self {
            BadRecording::InvalidConfig(invalid) => invalid_line(invalid),
            BadRecording::Config(why) => stopped_line(None, why),
            BadRecording::Call { number, why } => stopped_line(Some(number), why),
        }
    }
}

// A refusal as numbers, for C: the refusal's; of refusal 1 the failing field's; the call's, 0 for the configuration.
#[derive(Clone, Copy)]
pub struct BadNumbers {
    pub refusal: u32,
    pub field: u32,
    pub call: u32,
}

impl From<BadRecording> for BadNumbers {
    ghost from_gives = { λ why numbers. numbers ≡ spec.numbers_of why };

    fn from(why: BadRecording) -> BadNumbers {
        match why {
            BadRecording::InvalidConfig(invalid) => BadNumbers {
                // `Refusal` has all numbers but a configuration's.
                refusal: 1,
                field: invalid.field,
                call: 0,
            },
            BadRecording::Config(why) => BadNumbers {
                refusal: why.number(),
                field: 0,
                call: 0,
            },
            BadRecording::Call { number, why } => BadNumbers {
                refusal: why.number(),
                field: 0,
                call: number,
            },
        }
    }
}

// Whether a call is struck, and whether, after it, the last accepted guide or prime call was a fallback. Each pair of the two occurs
// (a refused call is struck and leaves the second as it was), so that an enum would have four variants for two facts.
#[derive(Clone, Copy)]
pub struct Judged {
    pub struck: bool,
    pub fell: bool,
}

// A recording that can be read to its end: the guidance to start with, and the place of the first call.
#[derive(Clone, Copy)]
pub struct Sound {
    pub guidance: PlaneGuidance,
    pub next: usize,
}

// ---- the first pass

// Goes over the calls from a place on, which is carried: a record's length shows when it is read.
fn scan(s: &[u8], from: usize) -> Result<(), BadRecording>
    ensures { result ≡ step.scanned 1 (read_calls most_calls s.now from) }
{
    let mut at = from;
    for number in 1..=MOST_CALLS {
        if s.len() <= at {
            return Ok(());
        }
        at = skip_call(s, at).map_err(|why| BadRecording::Call { number, why })?;
    }
    if s.len() <= at {
        return Ok(());
    }
    Err(BadRecording::Call {
        number: MOST_CALLS + 1,
        why: Refusal::TooManyCalls,
    })
}

pub fn decide(s: &[u8]) -> Result<Sound, BadRecording>
    ensures { result ≡ step.decided s.now }
{
    let read = read_config(s, 0).map_err(BadRecording::Config)?;
    let guidance = PlaneGuidance::new(read.config).map_err(BadRecording::InvalidConfig)?;
    scan(s, read.next)?;
    Ok(Sound {
        guidance,
        next: read.next,
    })
}

// ---- the second pass

fn judge_law(before: bool, law: VerticalLaw) -> Judged
    ensures { result ≡ step.judged_law before law }
{
    Judged {
        struck: match law {
            VerticalLaw::Hold => !before,
            VerticalLaw::Energy | VerticalLaw::Fallback => false,
        },
        fell: matches!(law, VerticalLaw::Fallback),
    }
}

pub fn judge(before: bool, reply: Reply) -> Judged
    ensures { result ≡ step.judged before (as_reply reply) }
{
    match reply {
        Some(Err(_)) => Judged {
            struck: true,
            fell: before,
        },
        Some(Ok(Answer::Waypoint(a))) => judge_law(before, a.laws.vertical),
        Some(Ok(Answer::Commanded(_))) | None => Judged {
            struck: false,
            fell: false,
        },
    }
}

// Moves a record that stays behind those before it, and answers the place after it.
fn keep(s: &mut [u8], to: usize, from: usize, next: usize) -> usize
    requires { (to ≤ from) × (from ≤ next) × (next ≤ length s.old) }
    ensures { Moved to (take (next - from) (drop from s.old)) s.old s.new result }
{
    if to < from {
        s.copy_within(from..next, to);
    }
    to + (next - from)
}

// Closes the gaps that struck calls leave, from the place of the first call on, and answers the place after the last record.
// The first pass read every record, so that none is refused before the end. No `for` over an iterator of calls: bytes move under the
// reader, so that nothing may hold the recording from one call to the next.
fn close_gaps(s: &mut [u8], sound: Sound) -> usize
    requires { (sound.next ≤ length s.old) × ((read_calls most_calls s.old sound.next).ending ≡ ends) }
    ensures { Closed sound.next sound.guidance s.old s.new result }
{
    let mut g = sound.guidance;
    let mut at = sound.next;
    let mut to = sound.next;
    let mut fell = false;
    while let Ok(read) = read_call(s, at) {
        let done = calls::perform(g, read.call);
        let judged = judge(fell, done.reply);
        if !judged.struck {
            to = keep(s, to, at, read.next);
        }
        g = done.guidance;
        fell = judged.fell;
        at = read.next;
    }
    to
}

// Compacts a recording, the whole slice, inside its buffer.
pub fn compact(s: &mut [u8]) -> Result<usize, BadRecording>
    ensures { (result ≡ spec.compacted s.old (recording s.old)) × (s.new ≡ spec.bytes_after s.old (recording s.old)) }
{
    let sound = decide(s)?;
    let n = close_gaps(s, sound);
    s[n..].fill(0);
    Ok(n)
}
