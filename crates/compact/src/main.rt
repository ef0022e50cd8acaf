// Compacts a recording: reads it from standard input and writes the short one to standard output. A refusal is told as
// the desk program would print it, by a line on standard error, and leaves standard output empty.
#![tactic(auto)]

ghost use Rattle.std.specs.Prelude.{◌≡◌, IfSome, IfOk, IsErrOf, take};
ghost use Rattle.std.specs.Io.KnownBytes.{Appends, Keeps};
ghost use Rattle.replay.specs.Sizes.{decisive};
ghost use Rattle.compact.specs.Output.{answer_to, output_of};

use compaction::{BadRecording, compact};
use input::{Failure, input_room, tell};
use reading::read_full;
use std::io::{Read, Write};

// Writes the short recording, or nothing where the recording is refused. Two Results: a refusal is an answer, of which the contract speaks,
// and a failure is none. As many bytes as decide the answer are read.
fn shorten<R: Read, W: Write>(
    reader: &mut R,
    writer: &mut W,
) -> Result<Result<usize, BadRecording>, Failure>
    ensures answer { IfOk result (λ answer. IfSome (R.remaining reader.old)
        (λ input. answer ≡ answer_to (take decisive input))) }
    ensures written { IfOk result (λ answer. IfSome (R.remaining reader.old)
        (λ input. Appends (W.contents writer.old) (W.contents writer.new) (output_of (take decisive input)))) }
    ensures unread { IsErrOf result Failure.Read → Keeps (W.contents writer.old) (W.contents writer.new) }
{
    let mut bytes = input_room();
    let size = read_full(reader, &mut bytes)?;
    let answer = compact(&mut bytes[..size]);
    if let Ok(n) = answer {
        writer.write_all(&bytes[..n]).map_err(|_| Failure::Write)?;
    }
    Ok(answer)
}

fn main(rt: HostRuntime) {
    // A line that standard error does not take is lost.
    let _ = match shorten(&mut rt.reader(), &mut rt.stdout()) {
        Ok(Ok(_)) => Ok(()),
        Ok(Err(bad)) => tell(&mut rt.stderr(), bad.line()),
        Err(failure) => eprintln!(rt; "compact: {failure}"),
    };
}
