// Converts call records: reads from standard input a byte, the wanted edition, and call records one behind the other, and writes
// them in that edition to standard output. A refusal is told by a line on standard error, with the number of the record, from 1,
// and leaves standard output empty; so does input that is longer than the program holds.
#![tactic(auto)]

ghost use Rattle.std.specs.Prelude.{◌≡◌, ◌≤◌, ◌<◌, length, OnOk, IfSome, IfOk, IsErrOf};
ghost use Rattle.std.specs.Io.KnownBytes.{Appends, Keeps};
ghost use Rattle.fields.specs.Bytes.{put_at};
ghost use Rattle.replay.specs.Sizes.{decisive};
ghost use Rattle.edition.specs.Conversion.{converted, conversion, AnswersWhole, output_of, told};

use editions::{Edition, convert};
use input::{Failure, INPUT_ROOM, input_room, tell};
use reading::read_full;
use refusals::Refusal;
use replay::turn::stopped_line;
use std::io;
use std::io::{Read, Write};

// Why the input is refused: its first byte is no edition, the record of a number, from 1, or too many bytes.
#[derive(Clone, Copy)]
enum Refused {
    NoEdition,
    Record { number: u32, why: Refusal },
    TooLong,
}

// Converts the records behind the first byte. No record is longer than the one it was read from, so that the buffer has room.
// A `while`: a record stands where the one before it ends, and how many there are shows at the end, so that a `for` over their numbers
// would need a last number that no input reaches and a way out before it.
fn convert_all(s: &[u8], wanted: Edition, out: &mut [u8]) -> Result<usize, Refused>
    requires { (length s.now < decisive) × (length s.now ≤ length out.old) }
    ensures { (result ≡ (converted wanted s.now).answer) × (out.new ≡ put_at out.old 0 (converted wanted s.now).bytes) }
{
    let mut at: usize = 1;
    let mut to: usize = 0;
    let mut n: u32 = 1;
    while at < s.len() {
        let done = convert(s, at, wanted, out, to).map_err(|why| Refused::Record {
            number: n,
            why,
        })?;
        at = done.read;
        to = done.written;
        n += 1;
    }
    Ok(to)
}

// Answers the input of which these bytes were read. Its first byte is the wanted edition.
fn convert_file(s: &[u8], out: &mut [u8]) -> Result<usize, Refused>
    requires { length s.now ≤ length out.old }
    ensures { AnswersWhole s.now out.old out.new result }
{
    if INPUT_ROOM <= s.len() {
        return Err(Refused::TooLong);
    }
    let first = s.first().ok_or(Refused::NoEdition)?;
    let wanted = Edition::try_from(u32::from(*first)).map_err(|_| Refused::NoEdition)?;
    convert_all(s, wanted, out)
}

// Writes the records of all that the reader has left, or nothing where they are refused. Two Results, as compact's.
fn convert_input<R: Read, W: Write>(
    reader: &mut R,
    writer: &mut W,
) -> Result<Result<usize, Refused>, Failure>
    ensures answer { IfOk result (λ done. IfSome (R.remaining reader.old)
        (λ input. done ≡ (conversion input).answer)) }
    ensures written { IfOk result (λ _. IfSome (R.remaining reader.old)
        (λ input. Appends (W.contents writer.old) (W.contents writer.new) (output_of input))) }
    ensures unread { IsErrOf result Failure.Read → Keeps (W.contents writer.old) (W.contents writer.new) }
{
    let mut bytes = input_room();
    let size = read_full(reader, &mut bytes)?;
    let mut out = input_room();
    let done = convert_file(&bytes[..size], &mut out);
    if let Ok(n) = done {
        writer.write_all(&out[..n]).map_err(|_| Failure::Write)?;
    }
    Ok(done)
}

// Tells on a stream, as standard error, why the input is refused; of one that is converted, nothing.
fn tell_answer<W: Write>(writer: &mut W, answer: Result<usize, Refused>) -> io::Result<()>
    ensures { OnOk result (Appends (W.contents writer.old) (W.contents writer.new) (told answer)) }
{
    match answer {
        Ok(_) => Ok(()),
        Err(Refused::NoEdition) => tell(writer, stopped_line(None, Refusal::UnknownRequest)),
        Err(Refused::Record { number, why }) => tell(writer, stopped_line(Some(number), why)),
        Err(Refused::TooLong) => writeln!(
            writer,
            "edition: standard input has more than 352393 bytes"
        ),
    }
}

fn main(rt: HostRuntime) {
    let done = convert_input(&mut rt.reader(), &mut rt.stdout());
    // A line that standard error does not take is lost.
    let _ = match done {
        Ok(answer) => tell_answer(&mut rt.stderr(), answer),
        Err(failure) => eprintln!(rt; "edition: {failure}"),
    };
}
