// Replays a recording into a lent buffer, as the desk program prints it.
#![tactic(auto)]

mod run;
pub mod turn;

ghost use Rattle.std.specs.Prelude.{◌≡◌, ◌≤◌, leb, length};
ghost use Rattle.fields.specs.Bytes.{put_at};
ghost use Rattle.fields.specs.Writing.{answer_of, buffer_of};
ghost use Rattle.lines.specs.Line.{Puts, text};
ghost use Rattle.replay.specs.Sizes.{text_room};
ghost use Rattle.replay.specs.Recording.{recording};
ghost use Rattle.replay.specs.Text.{lines_text, recording_lines, recording_text};
ghost use Rattle.replay.specs.Code.Run.{started, lines_left};

use crate::run::CallLines;
use crate::turn::{invalid_line, stopped_line};
use guidance::plane::PlaneGuidance;
use lines::{LINE_ROOM, Line, put_line};
use records::config::read_config;
use refusals::Refusal;

// "The desk program has input left after call 4,096".
pub const MOST_CALLS: u32 = 4096;

// 4,096 calls' lines and one that says why the replay stopped: no text has more bytes.
pub const TEXT_ROOM: usize = 4097 * LINE_ROOM;

// The lines of a recording's calls, or the one line of a configuration that is refused.
fn start(s: &[u8]) -> Result<CallLines, Line>
    ensures { started result ≡ recording_lines (recording s.now) }
{
    let read = read_config(s, 0).map_err(|why| stopped_line(None, why))?;
    let guidance = PlaneGuidance::new(read.config).map_err(invalid_line)?;
    Ok(CallLines {
        recording: s,
        at: read.next,
        number: 1,
        guidance,
    })
}

// Prints lines one after another, and answers how many bytes they have. The place is carried: how long a line is shows when it is put.
fn print_lines(lines: CallLines, out: &mut [u8]) -> usize
    requires { length (lines_text (lines_left lines)) ≤ length out.old }
    ensures { Puts (lines_text (lines_left lines.entry)) out.old out.new result }
{
    let mut to = 0;
    for line in lines {
        to += put_line(&mut out[to..], line);
    }
    to
}

#[tactic(auto, using(crate::proofs::TextLaw::one_text, crate::proofs::TextLaw::calls_text))]
fn print(s: &[u8], out: &mut [u8]) -> usize
    requires { length (recording_text s.now) ≤ length out.old }
    ensures { Puts (recording_text s.now) out.old out.new result }
{
    match start(s) {
        Err(line) => put_line(out, line),
        Ok(lines) => print_lines(lines, out),
    }
}

// How many bytes a line has: it is written beside the buffer.
#[tactic(auto, using(lines::proofs::TextLaw::text_short))]
fn line_size(l: Line) -> usize
    ensures { result ≡ length (text l) }
{
    put_line(&mut [0; LINE_ROOM], l)
}

fn text_size(s: &[u8]) -> usize
    ensures { result ≡ length (recording_text s.now) }
{
    match start(s) {
        Err(line) => line_size(line),
        Ok(lines) => lines.map(line_size).sum(),
    }
}

// Prints the text of a recording into a buffer that has room for every text.
#[tactic(auto, using(crate::proofs::TextLaw::text_fits))]
pub fn print_text(s: &[u8], out: &mut [u8]) -> usize
    requires { text_room ≤ length out.old }
    ensures { (result ≡ length (recording_text s.now)) × (out.new ≡ put_at out.old 0 (recording_text s.now)) }
{
    print(s, out)
}

// Whether so many bytes are room for the text of a recording, which is measured where they are not room for every text.
#[tactic(auto, using(crate::proofs::TextLaw::room_for_all))]
fn has_room(s: &[u8], size: usize) -> bool
    ensures { result ≡ leb (length (recording_text s.now)) size }
{
    TEXT_ROOM <= size || text_size(s) <= size
}

// The text of a recording at the front of a buffer, and the place after it; number 8 where the buffer has too few bytes.
pub fn replay(s: &[u8], out: &mut [u8]) -> Result<usize, Refusal>
    ensures { (result ≡ answer_of out.old 0 (recording_text s.now)) × (out.new ≡ buffer_of out.old 0 (recording_text s.now)) }
{
    if !has_room(s, out.len()) {
        return Err(Refusal::TooLittleRoom);
    }
    Ok(print(s, out))
}
