// Reads the records of data/entries, writes what was read, and prints a line for each. stdout has the lines that the oracle
// gives for the same entries: tools/vectors/records.py makes both files and says what an entry is.
#![tactic(auto)]

use records::call::read_call;
use records::call_writer::write_call;
use records::config::{read_config, write_config};
use refusals::Refusal;
use std::io;
use std::io::{ErrorKind, Read, Write};

// What stands in a buffer before a record is written.
const FILL: u8 = 165;

// A place of an entry; 255 is the largest one.
fn place(b: u8) -> usize {
    if b == 255 { usize::MAX } else { usize::from(b) }
}

// The digit of the lower half of a byte.
fn digit(b: u8) -> u8 {
    let n = b % 16;
    if n < 10 { b'0' + n } else { b'a' - 10 + n }
}

// Not `{b:02x}`: a formatter for each byte took two and a half times the program's instructions.
fn print_hex<R: Print>(rt: &R, bytes: &[u8]) -> io::Result<()> {
    for b in bytes {
        io::writer(rt).write_all(&[digit(b / 16), digit(*b)])?;
    }
    Ok(())
}

// Reads a record from a place on, writes what was read, and prints what the reader and the writer answer, and the buffer.
fn try_record<
    R: Print,
    T: Copy,
    Reads: Fn(&[u8], usize) -> Result<(T, usize), Refusal>,
    Writes: Fn(&mut [u8], usize, T) -> Result<usize, Refusal>,
>(
    rt: &R,
    s: &[u8],
    from: usize,
    out: &mut [u8],
    to: usize,
    read: Reads,
    write: Writes,
) -> io::Result<()>
    requires reads { Reads.IsAlwaysCallable read }
    requires writes { Writes.IsAlwaysCallable write }
{
    match read(s, from) {
        Err(why) => print!(rt; " refused {}", why.number()),
        Ok((record, next)) => {
            print!(rt; " read {next}")?;
            match write(out, to, record) {
                Ok(next) => print!(rt; " wrote {next} ")?,
                Err(why) => print!(rt; " refused {} ", why.number())?,
            }
            print_hex(rt, out)
        }
    }
}

// Fills the room; false where the file has fewer bytes. std's own reading goes on after a read that was interrupted.
fn fill<F: Read>(file: &mut F, room: &mut [u8]) -> io::Result<bool> {
    match file.read_exact(room) {
        Ok(()) => Ok(true),
        Err(e) if e.kind() == ErrorKind::UnexpectedEof => Ok(false),
        Err(e) => Err(e),
    }
}

// Reads an entry and tries it; false where the file has no whole one left.
fn try_entry<R: Print, F: Read>(rt: &R, file: &mut F, number: u32) -> io::Result<bool> {
    let mut head = [0u8; 5];
    if !fill(file, &mut head)? {
        return Ok(false);
    }
    let [kind, from, to, room, n] = head;
    let mut s = [0u8; 256];
    let s = &mut s[..usize::from(n)];
    if !fill(file, s)? {
        return Ok(false);
    }
    let mut out = [FILL; 256];
    let out = &mut out[..usize::from(room)];
    print!(rt; "{number}")?;
    // The kind of record is the entry's byte.
    if kind == 0 {
        let read = |s: &[u8], at: usize| read_call(s, at).map(|read| (read.call, read.next));
        try_record(rt, s, place(from), out, place(to), read, write_call)?;
    } else {
        let read = |s: &[u8], at: usize| read_config(s, at).map(|read| (read.config, read.next));
        try_record(rt, s, place(from), out, place(to), read, write_config)?;
    }
    println!(rt)?;
    Ok(true)
}

fn main(rt: HostRuntime) -> io::Result<()> {
    let Some(mut file) = case_rows::open(&rt, "entries")? else {
        return Ok(());
    };
    // A proved loop has to end: the entries are fewer.
    for number in 1..100_000 {
        if !try_entry(&rt, &mut file, number)? {
            break;
        }
    }
    Ok(())
}
