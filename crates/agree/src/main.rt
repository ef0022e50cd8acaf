// Holds two recordings together: the box's from standard input, the display's from descriptor 3. Writes a line: `agree`; `part` and
// the numbers of the calls at which they part; or `box` or `display` and the desk program's line of its refusal. A read that
// fails is told by a line on standard error and leaves standard output empty; each piece of the line that cannot be written is told by one, and
// what stands behind it is written all the same.
#![tactic(auto)]

ghost use Rattle.std.specs.Prelude.{◌≡◌, ◌≤◌, ◌++◌, length, take, codes, decimal, OnOk, IfOk, IfErr, IfSome, IsErrOf};
ghost use Rattle.std.specs.Io.KnownBytes.{Appends, Keeps};
ghost use Rattle.input.specs.declared.Failure.TheVariants as failure;
ghost use Rattle.agree.specs.declared.Unanswered.TheVariants as unanswered;
ghost use Rattle.agree.specs.Text.{part_text, answer_text, side_text, refused_text, text_of, output_of};

use agreement::{Agreement, Refused, Side, agree};
use input::{Failure, input_room, tell};
use reading::{ReadFailed, read_full};
use std::fs::File;
use std::io::{Read, Write};
use std::{fmt, io};

// Descriptor 3, opened anew by its name, since std makes no File of a descriptor's number: a file is read
// from its start.
const DISPLAY_INPUT: &str = "/dev/fd/3";

// Why the program ends without its answer.
#[derive(Clone, Copy, Debug, PartialEq, Eq)]
enum Unanswered {
    Failed(Failure),
    NoDisplay,
}

impl fmt::Display for Unanswered {
    fn fmt<W: fmt::Write>(&self, f: &mut fmt::Formatter<W>) -> fmt::Result {
        match self {
            Unanswered::Failed(failure) => write!(f, "{failure}"),
            Unanswered::NoDisplay => write!(f, "descriptor 3 cannot be read"),
        }
    }
}

impl From<ReadFailed> for Unanswered {
    ghost from_gives = { λ _ why. why ≡ unanswered.Failed failure.Read };

    fn from(_failed: ReadFailed) -> Unanswered {
        Self::Failed(Failure::Read)
    }
}

// A piece of what is written, or the line that it was not. What stands behind it is written all the same.
fn piece<E: Eprint>(rt: &E, written: io::Result<()>) -> io::Result<()>
    ensures { result ≡ written }
{
    if written.is_err() {
        // A line that standard error does not take is lost.
        let _ = eprintln!(rt; "agree: {}", Failure::Write);
    }
    written
}

fn write_end<E: Eprint, W: Write>(rt: &E, writer: &mut W, theirs: u32) -> io::Result<()>
    ensures { OnOk result (Appends (W.contents writer.old) (W.contents writer.new) (decimal theirs ++ codes "\n")) }
{
    let number = piece(rt, write!(writer, "{theirs}"));
    let end = piece(rt, writeln!(writer));
    number?;
    end
}

fn write_second<E: Eprint, W: Write>(rt: &E, writer: &mut W, theirs: u32) -> io::Result<()>
    ensures { OnOk result (Appends (W.contents writer.old) (W.contents writer.new) (codes " " ++ (decimal theirs ++ codes "\n"))) }
{
    let space = piece(rt, write!(writer, " "));
    let rest = write_end(rt, writer, theirs);
    space?;
    rest
}

fn write_numbers<E: Eprint, W: Write>(
    rt: &E,
    writer: &mut W,
    ours: u32,
    theirs: u32,
) -> io::Result<()>
    ensures { OnOk result (Appends (W.contents writer.old) (W.contents writer.new) (decimal ours ++ (codes " " ++ (decimal theirs ++ codes "\n")))) }
{
    let number = piece(rt, write!(writer, "{ours}"));
    let rest = write_second(rt, writer, theirs);
    number?;
    rest
}

// The calls at which two recordings part. Functions and no Display, here and below: the types are of `agreement`, which knows no texts, and
// a refusal ends in a `Line`, which has none.
#[tactic(auto, unfolding(crate::specs::Text::part_text))]
fn write_part<E: Eprint, W: Write>(
    rt: &E,
    writer: &mut W,
    box_call: Option<u32>,
    display_call: Option<u32>,
) -> io::Result<()>
    ensures { OnOk result (Appends (W.contents writer.old) (W.contents writer.new) (part_text box_call display_call)) }
{
    let word = piece(rt, write!(writer, "part "));
    let rest = write_numbers(rt, writer, box_call.unwrap_or(0), display_call.unwrap_or(0));
    word?;
    rest
}

#[tactic(auto, unfolding(crate::specs::Text::answer_text))]
fn write_answer<E: Eprint, W: Write>(rt: &E, writer: &mut W, answer: Agreement) -> io::Result<()>
    ensures { OnOk result (Appends (W.contents writer.old) (W.contents writer.new) (answer_text answer)) }
{
    match answer {
        Agreement::Agree => piece(rt, writeln!(writer, "agree")),
        Agreement::PartAtConfig => write_part(rt, writer, None, None),
        Agreement::Part {
            box_call,
            display_call,
        } => write_part(rt, writer, box_call, display_call),
    }
}

#[tactic(auto, unfolding(crate::specs::Text::side_text))]
fn write_side<W: Write>(writer: &mut W, side: Side) -> io::Result<()>
    ensures { OnOk result (Appends (W.contents writer.old) (W.contents writer.new) (side_text side)) }
{
    match side {
        Side::Box => write!(writer, "box "),
        Side::Display => write!(writer, "display "),
    }
}

fn write_refused<E: Eprint, W: Write>(rt: &E, writer: &mut W, refused: Refused) -> io::Result<()>
    ensures { OnOk result (Appends (W.contents writer.old) (W.contents writer.new) (refused_text refused)) }
{
    let side = piece(rt, write_side(writer, refused.side));
    let line = piece(rt, tell(writer, refused.why.line()));
    side?;
    line
}

// Writes how two recordings agree, piece by piece.
fn write_agreement<E: Eprint, W: Write>(
    rt: &E,
    writer: &mut W,
    answer: Result<Agreement, Refused>,
) -> io::Result<()>
    ensures { OnOk result (Appends (W.contents writer.old) (W.contents writer.new) (text_of answer)) }
{
    match answer {
        Ok(answer) => write_answer(rt, writer, answer),
        Err(refused) => write_refused(rt, writer, refused),
    }
}

// Reads the display's recording, as it was opened.
fn read_display<D: Read + Drop>(
    theirs: io::Result<D>,
    buffer: &mut [u8],
) -> Result<usize, Unanswered>
    ensures size { IfOk result (λ size. size ≤ length buffer.new) }
    ensures front { IfOk result (λ size. IfOk theirs (λ opened. IfSome (D.remaining opened)
        (λ display. take size buffer.new ≡ take (length buffer.new) display))) }
    ensures why { IfErr result (λ why. why ≡ unanswered.NoDisplay) }
{
    let mut opened = theirs.map_err(|_| Unanswered::NoDisplay)?;
    read_full(&mut opened, buffer).map_err(|_| Unanswered::NoDisplay)
}

// Compares the box's recording, as far as it decides, with the display's, as it was opened.
fn compare<D: Read + Drop, E: Eprint, W: Write>(
    rt: &E,
    ours: &[u8],
    theirs: io::Result<D>,
    writer: &mut W,
) -> Result<(), Unanswered>
    ensures text { OnOk result (IfOk theirs (λ opened. IfSome (D.remaining opened)
        (λ display. Appends (W.contents writer.old) (W.contents writer.new) (output_of ours.now display)))) }
    ensures unopened { IsErrOf result Unanswered.NoDisplay → Keeps (W.contents writer.old) (W.contents writer.new) }
{
    let mut display_bytes = input_room();
    let n = read_display(theirs, &mut display_bytes)?;
    let answer = agree(ours, &display_bytes[..n]);
    write_agreement(rt, writer, answer).map_err(|_| Unanswered::Failed(Failure::Write))
}

// Standard input is read before descriptor 3 is opened: where it is closed, the opened file would take its number.
fn run(rt: &HostRuntime) -> Result<(), Unanswered> {
    let mut box_bytes = input_room();
    let m = read_full(&mut rt.reader(), &mut box_bytes)?;
    compare(
        rt,
        &box_bytes[..m],
        File::open(rt, DISPLAY_INPUT),
        &mut rt.stdout(),
    )
}

fn main(rt: HostRuntime) {
    match run(&rt) {
        // What could not be written was told piece by piece.
        Ok(()) | Err(Unanswered::Failed(Failure::Write)) => {}
        Err(why) => {
            // A line that standard error does not take is lost.
            let _ = eprintln!(rt; "agree: {why}");
        }
    }
}
