// What the programs desk, compact, agree and edition share: room for their input, as many bytes as decide what they answer, why they
// end without an answer, and the line that tells a refusal.
#![tactic(auto)]

ghost use Rattle.std.specs.Prelude.{◌≡◌, length, OnOk};
ghost use Rattle.std.specs.Io.KnownBytes.{Appends};
ghost use Rattle.lines.specs.Line.{text};
ghost use Rattle.replay.specs.Sizes.{decisive};
ghost use Rattle.input.specs.declared.Failure.TheVariants as failure;

use lines::{LINE_ROOM, Line, put_line};
use reading::ReadFailed;
use std::io::Write;
use std::{fmt, io};

// One byte more than the largest recording that can be read to its end: 137 bytes of configuration and 4,096 calls of
// 86 bytes. To desk, compact and agree input left after these is number 9 whatever it is, so the rest is not read; edition has
// no limit of calls, and refuses input that fills the room.
pub const INPUT_ROOM: usize = 137 + 4096 * 86 + 1;

// Why a program ends without its answer, as the line that it writes on standard error says. No From<io::Error>: a read's error is one too.
#[derive(Clone, Copy, Debug, PartialEq, Eq)]
pub enum Failure {
    Read,
    Write,
}

impl fmt::Display for Failure {
    fn fmt<W: fmt::Write>(&self, f: &mut fmt::Formatter<W>) -> fmt::Result {
        match self {
            Failure::Read => write!(f, "standard input cannot be read"),
            Failure::Write => write!(f, "standard output cannot be written"),
        }
    }
}

impl From<ReadFailed> for Failure {
    ghost from_gives = { λ _ f. f ≡ failure.Read };

    fn from(_failed: ReadFailed) -> Failure {
        Self::Read
    }
}

// Fixed memory, no heap.
pub fn input_room() -> [u8; INPUT_ROOM]
    ensures { decisive ≡ length result }
{
    [0u8; INPUT_ROOM]
}

// A line on a stream, as on standard error.
#[tactic(auto, using(lines::proofs::TextLaw::text_short))]
pub fn tell<W: Write>(writer: &mut W, l: Line) -> io::Result<()>
    ensures { OnOk result (Appends (W.contents writer.old) (W.contents writer.new) (text l)) }
{
    let mut text = [0u8; LINE_ROOM];
    let n = put_line(&mut text, l);
    writer.write_all(&text[..n])
}
