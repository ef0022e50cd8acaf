// The desk program: reads a recording from standard input and writes its text to standard output.
//
// It reads to the end, or as far as anything that follows can no longer change the text. A read or a write that fails is
// told by a line on standard error; a read that fails leaves standard output empty.
#![tactic(auto)]

ghost use Rattle.std.specs.Prelude.{◌≡◌, ◌≤◌, length, OnOk, IfSome, IsErrOf};
ghost use Rattle.std.specs.Io.KnownBytes.{Appends, Keeps};
ghost use Rattle.replay.specs.Sizes.{text_room};
ghost use Rattle.replay.specs.Text.{recording_text};
ghost use Rattle.desk.specs.Shown.{Shown};

use input::{Failure, input_room};
use reading::read_full;
use replay::TEXT_ROOM;
use std::io::{Read, Write};

// Fixed memory, no heap. Beside input's `input_room`, since each promises its own size.
fn text_room() -> [u8; TEXT_ROOM]
    ensures { text_room ≡ length result }
{
    [0u8; TEXT_ROOM]
}

// The text of the input, of which these bytes were read.
fn show(read: &[u8], out: &mut [u8]) -> usize
    requires { text_room ≤ length out.old }
    ensures { Shown read.now out.new result }
{
    replay::print_text(read, out)
}

// Writes the text of all that the reader has left.
fn print<R: Read, W: Write>(reader: &mut R, writer: &mut W) -> Result<(), Failure>
    ensures text { OnOk result (IfSome (R.remaining reader.old)
        (λ input. Appends (W.contents writer.old) (W.contents writer.new) (recording_text input))) }
    ensures unread { IsErrOf result Failure.Read → Keeps (W.contents writer.old) (W.contents writer.new) }
{
    let mut bytes = input_room();
    let size = read_full(reader, &mut bytes)?;
    let mut out = text_room();
    let n = show(&bytes[..size], &mut out);
    writer.write_all(&out[..n]).map_err(|_| Failure::Write)
}

fn main(rt: HostRuntime) {
    if let Err(failure) = print(&mut rt.reader(), &mut rt.stdout()) {
        // A line that standard error does not take is lost.
        let _ = eprintln!(rt; "desk: {failure}");
    }
}
