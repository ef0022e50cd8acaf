// Box and display held together: two recordings, each without the calls that demand 3 allows to be struck, tell one story or
// part at a call.
//
// Each recording is read to its end first, as for its compaction; where one is refused, that is the answer. Then each goes from one
// remaining call to the next, for as long as the two calls are the same.
#![tactic(auto)]

ghost use Rattle.std.specs.Prelude.{◌≡◌};
ghost use Rattle.std.specs.Iterator.{YieldsFirstBy, item_count};
ghost use Rattle.compaction.specs.Code.Steps.{decided};
ghost use Rattle.agreement.specs.Agreement as spec;
ghost use Rattle.agreement.specs.Code.Steps as step;
ghost use Rattle.agreement.specs.Code.Steps.{calls_left};

use compaction::{BadRecording, Sound, decide, judge};
use fields::numbers::bits_of;
use guidance::plane::PlaneGuidance;
use laws::config::PlaneGuidanceConfig;
use records::call::{Call, read_call};
use records::call_writer::parts_of;
use replay::MOST_CALLS;

// Whose recording it is.
#[derive(Clone, Copy, PartialEq, Eq)]
pub enum Side {
    Box,
    Display,
}

// A recording that is refused, as its compaction would be.
#[derive(Clone, Copy, PartialEq, Eq)]
pub struct Refused {
    pub side: Side,
    pub why: BadRecording,
}

// They agree; or they part at the configuration, or at the calls of these numbers, none where a recording has no call left.
#[derive(Clone, Copy, PartialEq, Eq)]
pub enum Agreement {
    Agree,
    PartAtConfig,
    Part {
        box_call: Option<u32>,
        display_call: Option<u32>,
    },
}

// A remaining call, with its number in the recording.
#[derive(Clone, Copy)]
struct NumberedCall {
    number: u32,
    call: Call,
}

// The calls of a recording from a place on, without those that are struck: the guidance there, and the number of the next call. No filter
// over replay's `CallLines`: that gives lines, and its last may be a refusal, where here every record was read before. `fell` is no absence
// of a value: it is whether the last accepted guide or prime call was a fallback, as `judge` asks.
#[derive(Clone, Copy)]
struct RemainingCalls<'a> {
    recording: &'a [u8],
    guidance: PlaneGuidance,
    at: usize,
    fell: bool,
    number: u32,
}

// ---- values, equal as bits: `==` of f32s holds no NaN equal to itself, and both zeros equal

fn same_config(c: PlaneGuidanceConfig, d: PlaneGuidanceConfig) -> bool
    ensures { result ≡ spec.same_list (spec.config_values c) (spec.config_values d) }
{
    config_numbers::bits_of(c) == config_numbers::bits_of(d)
}

fn same_call(c: Call, d: Call) -> bool
    ensures { result ≡ spec.same_list (spec.call_values c) (spec.call_values d) }
{
    let p = parts_of(c);
    let q = parts_of(d);
    (p.kind == q.kind)
        & (p.regime == q.regime)
        & (bits_of(p.numbers) == bits_of(q.numbers))
        & (p.keeps == q.keeps)
}

// ---- one recording's remaining calls

impl Iterator for RemainingCalls<'_> {
    type Item = NumberedCall;

    ghost next_gives = { YieldsFirstBy step.numbered_as calls_left };

    ghost remaining = { item_count calls_left };

    fn next(&mut self) -> Option<NumberedCall> {
        for number in self.number..=MOST_CALLS {
            if self.recording.len() <= self.at {
                return None;
            }
            // Every record was read before.
            let Ok(read) = read_call(self.recording, self.at) else {
                return None;
            };
            let done = calls::perform(self.guidance, read.call);
            let judged = judge(self.fell, done.reply);
            self.guidance = done.guidance;
            self.at = read.next;
            self.fell = judged.fell;
            self.number = number + 1;
            if !judged.struck {
                return Some(NumberedCall {
                    number,
                    call: read.call,
                });
            }
        }
        None
    }
}

fn remaining_calls(s: &[u8], sound: Sound) -> RemainingCalls<'_>
    ensures { calls_left result ≡ step.calls_of_sound s.now sound }
{
    RemainingCalls {
        recording: s,
        guidance: sound.guidance,
        at: sound.next,
        fell: false,
        number: 1,
    }
}

// ---- both

// Goes on for as long as the calls are the same.
fn part_calls(box_calls: RemainingCalls<'_>, mut display_calls: RemainingCalls<'_>) -> Agreement
    ensures { result ≡ spec.part_calls (calls_left box_calls.entry) (calls_left display_calls.entry) }
{
    for ours in box_calls {
        let Some(theirs) = display_calls.next() else {
            return Agreement::Part {
                box_call: Some(ours.number),
                display_call: None,
            };
        };
        if !same_call(ours.call, theirs.call) {
            return Agreement::Part {
                box_call: Some(ours.number),
                display_call: Some(theirs.number),
            };
        }
    }
    match display_calls.next() {
        None => Agreement::Agree,
        Some(theirs) => Agreement::Part {
            box_call: None,
            display_call: Some(theirs.number),
        },
    }
}

// Two recordings that can be read. Bytes and what was read of them go in apart: a `Sound` borrows nothing, since compaction moves the bytes.
fn part(s: &[u8], a: Sound, t: &[u8], b: Sound) -> Agreement
    ensures { result ≡ step.parted s.now a t.now b }
{
    if !same_config(a.guidance.config, b.guidance.config) {
        return Agreement::PartAtConfig;
    }
    part_calls(remaining_calls(s, a), remaining_calls(t, b))
}

fn decide_for(side: Side, s: &[u8]) -> Result<Sound, Refused>
    ensures { result ≡ step.decided_for side (decided s.now) }
{
    decide(s).map_err(|why| Refused { side, why })
}

// Compares the box's recording with the display's; the box's refusal first.
pub fn agree(s: &[u8], t: &[u8]) -> Result<Agreement, Refused>
    ensures { result ≡ spec.agreement s.now t.now }
{
    let a = decide_for(Side::Box, s)?;
    let b = decide_for(Side::Display, t)?;
    Ok(part(s, a, t, b))
}
