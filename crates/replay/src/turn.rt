// What a recorded call does, and its line.
ghost use Rattle.std.specs.Prelude.{◌≡◌};
ghost use Rattle.refusals.specs.Numbers.{number};
ghost use Rattle.replay.specs.Text as spec;
ghost use Rattle.calls.specs.Calls.{as_reply};
ghost use Rattle.replay.specs.Code.Performed.{call_line};

use calls::Reply;
use fields::bytes::to_bits;
use guidance::plane::{Answer, LateralLaw, PlaneGuidance, VerticalLaw};
use laws::config::InvalidConfig;
use laws::types::Setpoint;
use lines::{Line, Values, Word};
use records::call::Call;
use refusals::Refusal;

#[derive(Clone, Copy)]
pub struct CallLine {
    pub line: Line,
    pub guidance: PlaneGuidance,
}

// A line of a word and a refusal's number, where there is one: any number, also one that no `Refusal` has.
pub fn number_line(call: Option<u32>, first: Word, refusal: Option<u32>) -> Line
    ensures { result ≡ spec.number_line call first refusal }
{
    Line {
        call,
        first: Some(first),
        second: None,
        refusal,
        values: Values::None,
    }
}

// A call that is refused.
pub fn refused_line(call: Option<u32>, why: Refusal) -> Line
    ensures { result ≡ spec.refused_line call (number why) }
{
    number_line(call, Word::Refused, Some(why.number()))
}

// A configuration that is refused, with its failing field.
pub fn invalid_line(invalid: InvalidConfig) -> Line
    ensures { result ≡ spec.refused_line None invalid.field }
{
    number_line(None, Word::Refused, Some(invalid.field))
}

// A record that is refused: a call's, or the configuration's.
pub fn stopped_line(call: Option<u32>, why: Refusal) -> Line
    ensures { result ≡ spec.stopped_line call (number why) }
{
    number_line(call, Word::Stopped, Some(why.number()))
}

// The call that a number names; 0 is the configuration.
#[tactic(auto, unfolding(crate::specs::Text::called))]
fn called(number: u32) -> Option<u32>
    ensures { result ≡ spec.called number }
{
    (number != 0).then_some(number)
}

fn prime_line(number: u32) -> Line
    ensures { result ≡ spec.prime_line number }
{
    number_line(called(number), Word::Prime, None)
}

// The setpoint's numbers, and of a waypoint the distance off the line.
#[tactic(auto, unfolding(crate::specs::Text::setpoint_values))]
fn setpoint_values(setpoint: Setpoint, cross_track_m: Option<f32>) -> Values
    ensures { result ≡ spec.setpoint_values setpoint cross_track_m }
{
    match setpoint {
        Setpoint::Plane {
            roll_rad,
            pitch_rad,
            thrust,
        } => match cross_track_m {
            None => Values::Three([roll_rad, pitch_rad, thrust].map(to_bits)),
            Some(off) => Values::Four([roll_rad, pitch_rad, thrust, off].map(to_bits)),
        },
        Setpoint::PlaneRate {
            roll_radps,
            pitch_radps,
            yaw_radps,
            thrust,
        } => Values::Four([roll_radps, pitch_radps, yaw_radps, thrust].map(to_bits)),
    }
}

fn setpoint_line(number: u32, first: Word, second: Option<Word>, values: Values) -> Line
    ensures { result ≡ spec.setpoint_line number first second values }
{
    Line {
        call: called(number),
        first: Some(first),
        second,
        refusal: None,
        values,
    }
}

// No From, here and below: neither the setpoint, the laws nor `Word` is of this crate.
fn kind_word(setpoint: Setpoint) -> Word
    ensures { result ≡ spec.kind_word setpoint }
{
    match setpoint {
        Setpoint::Plane { .. } => Word::Plane,
        Setpoint::PlaneRate { .. } => Word::Rate,
    }
}

fn lateral_word(law: LateralLaw) -> Word
    ensures { result ≡ spec.lateral_word law }
{
    match law {
        LateralLaw::Track => Word::Track,
        LateralLaw::Loiter => Word::Loiter,
        LateralLaw::Idle => Word::Idle,
    }
}

fn vertical_word(law: VerticalLaw) -> Word
    ensures { result ≡ spec.vertical_word law }
{
    match law {
        VerticalLaw::Energy => Word::Energy,
        VerticalLaw::Hold => Word::Hold,
        VerticalLaw::Fallback => Word::Fallback,
    }
}

#[tactic(auto, unfolding(crate::specs::Text::answer_line))]
fn answer_line(number: u32, answer: Result<Answer, Refusal>) -> Line
    ensures { result ≡ spec.answer_line number answer }
{
    match answer {
        Err(why) => refused_line(called(number), why),
        Ok(Answer::Commanded(setpoint)) => setpoint_line(
            number,
            kind_word(setpoint),
            None,
            setpoint_values(setpoint, None),
        ),
        Ok(Answer::Waypoint(a)) => setpoint_line(
            number,
            lateral_word(a.laws.lateral),
            Some(vertical_word(a.laws.vertical)),
            setpoint_values(a.setpoint, Some(a.cross_track_m)),
        ),
    }
}

#[tactic(auto, unfolding(crate::specs::Text::reply_line))]
fn reply_line(number: u32, reply: Reply) -> Line
    ensures { result ≡ spec.reply_line number (as_reply reply) }
{
    match reply {
        Some(answer) => answer_line(number, answer),
        None => prime_line(number),
    }
}

// A call's line, and the guidance after it.
#[tactic(auto, unfolding(crate::specs::Code::Performed::call_line))]
pub fn call_line(number: u32, g: PlaneGuidance, call: Call) -> CallLine
    ensures { result ≡ call_line number g call }
{
    let done = calls::perform(g, call);
    CallLine {
        line: reply_line(number, done.reply),
        guidance: done.guidance,
    }
}
