// What the programs over rows of figures share: reading a file's rows, trying each, how many were right, and the energy state in a row.
#![tactic(auto)]

pub mod energy;

ghost use Rattle.std.specs.Prelude.{◌≡◌, ◌+◌, ◌%◌, ◌^◌, ◌<◌, ◌≤◌, ◌↔◌, ◌++◌, length, take, map, slice_range, IfOk, IfNone, IsTrue, Some, codes};
ghost use Rattle.std.specs.Fmt.{decimal};
ghost use Rattle.std.specs.Int.{w32, from_le_bytes};
ghost use Rattle.std.specs.Simd.{first_chunks};
ghost use Rattle.std.specs.Io.KnownBytes.{Consumes, IsAtEnd};
ghost use Rattle.fields.specs.Numbers.{floats_of, bits_of};

pub use fields::bytes::{from_bits, to_bits};
use fields::numbers::{bits_of, floats_of};
use reading::read_full;
use std::io::Read;
use std::ops::AddAssign;
use std::rt::Files;
use std::{fmt, fs, io};

// The most rows that are tried of a file: a proved loop has to end.
pub const MOST_ROWS: u32 = 100_000;

// The most words of a row, and its bytes.
pub const MOST_WORDS: usize = 64;

const ROOM: usize = MOST_WORDS * 4;

// The words of a row, from the first on; what stands after its last says nothing. One room for rows of every width: no heap. What a place or
// a width may be stands at each function below: it is a fact of its arguments, and none of a row.
#[derive(Drop)]
pub struct Row {
    pub words: [u32; MOST_WORDS],
}

impl Row {
    // N words, from a place on.
    pub fn words<const N: usize>(&self, from: usize) -> [u32; N]
        requires { from + N ≤ MOST_WORDS }
        ensures { result ≡ slice_range self.now.words from (from + N) }
    {
        let mut part = [0; N];
        part.copy_from_slice(&self.words[from..from + N]);
        part
    }

    // The numbers whose bits are N words from a place on.
    pub fn numbers<const N: usize>(&self, from: usize) -> [f32; N]
        requires { from + N ≤ MOST_WORDS }
        ensures { result ≡ floats_of (slice_range self.now.words from (from + N)) }
    {
        floats_of(self.words(from))
    }

    // Whether the words from a place on are these numbers' bits.
    pub fn has<const N: usize>(&self, from: usize, numbers: [f32; N]) -> bool
        requires { from + N ≤ MOST_WORDS }
        ensures { IsTrue result ↔ (slice_range self.now.words from (from + N) ≡ bits_of numbers.entry) }
    {
        self.words(from) == bits_of(numbers)
    }
}

// Four bytes make a word, low byte first.
impl From<[u8; ROOM]> for Row {
    ghost use Rattle.case_rows.specs.declared.TheConstants.{MOST_WORDS};

    ghost from_gives = { λ bytes row. row.words ≡ map (from_le_bytes w32) (first_chunks 4 MOST_WORDS bytes) };

    fn from(bytes: [u8; ROOM]) -> Row {
        // By index: of what a zip over iter_mut leaves, a proof knows the length alone.
        let (chunks, _) = bytes.as_chunks::<4>();
        let mut words = [0; MOST_WORDS];
        for (i, chunk) in chunks.iter().enumerate() {
            words[i] = u32::from_le_bytes(*chunk);
        }
        Row { words }
    }
}

// How many rows there were, and how many of them were right.
#[derive(Clone, Copy, Default)]
pub struct Count {
    pub rows: u32,
    pub right: u32,
}

impl AddAssign for Count {
    ghost add_assign_gives = { λ a b sum. (sum.rows ≡ (a.rows + b.rows) % 2 ^ 32) × (sum.right ≡ (a.right + b.right) % 2 ^ 32) };

    fn add_assign(&mut self, other: Count) {
        self.rows = self.rows.wrapping_add(other.rows);
        self.right = self.right.wrapping_add(other.right);
    }
}

impl fmt::Display for Count {
    ghost output = { λ count. Some (decimal count.right ++ codes " of " ++ decimal count.rows) };

    fn fmt<W: fmt::Write>(&self, f: &mut fmt::Formatter<W>) -> fmt::Result {
        let right = self.right;
        let rows = self.rows;
        write!(f, "{right} of {rows}")
    }
}

// Reads a row of some words and tries it; None where the file has no more, or a row no word. A row that is cut short is not right.
fn try_row<F: Read, T: FnMut(&Row) -> bool>(
    file: &mut F,
    words: usize,
    is_right: &mut T,
) -> io::Result<Option<bool>>
    requires fits { words ≤ MOST_WORDS }
    requires callable { T.IsAlwaysCallable is_right.old }
    ensures still_callable { T.IsAlwaysCallable is_right.new }
    ensures end { IfOk result (λ right. IfNone right (0 < words → IsAtEnd (F.remaining file.new))) }
{
    let mut room = [0u8; ROOM];
    let size = words * 4;
    match read_full(file, &mut room[..size])? {
        0 => Ok(None),
        n => Ok(Some(n == size && is_right(&Row::from(room)))),
    }
}

// Tries the rows of a file, at most MOST_ROWS.
pub fn try_rows<F: Read, T: FnMut(&Row) -> bool>(
    file: &mut F,
    words: usize,
    mut is_right: T,
) -> io::Result<Count>
    requires fits { words ≤ MOST_WORDS }
    requires callable { T.IsAlwaysCallable is_right }
    ensures right { IfOk result (λ count. count.right ≤ count.rows) }
    ensures most { IfOk result (λ count. count.rows ≤ MOST_ROWS) }
    ensures end { IfOk result (λ count. count.rows < MOST_ROWS → 0 < words → IsAtEnd (F.remaining file.new)) }
{
    let mut right = 0;
    for rows in 0..MOST_ROWS {
        match try_row(file, words, &mut is_right)? {
            None => return Ok(Count { rows, right }),
            Some(true) => right += 1,
            Some(false) => {}
        }
    }
    // Another is read and not counted: where that fails, no count is given.
    try_row(file, words, &mut is_right)?;
    Ok(Count {
        rows: MOST_ROWS,
        right,
    })
}

// Opens the file of this name; None where it can't, which a line on standard error says. It promises nothing, as std's does.
pub fn open<R: Files + Eprint>(rt: &R, name: &str) -> io::Result<Option<R::File>> {
    match fs::open(rt, name) {
        Ok(file) => Ok(Some(file)),
        Err(e) => {
            eprintln!(rt; "{name}: {e}")?;
            Ok(None)
        }
    }
}

// Tries the rows of the file of this name, and prints the count under the name.
pub fn try_group<R: Files + Print + Eprint, T: FnMut(&Row) -> bool>(
    rt: &R,
    name: &str,
    words: usize,
    is_right: T,
) -> io::Result<Count>
    requires fits { words ≤ MOST_WORDS }
    requires callable { T.IsAlwaysCallable is_right }
    ensures right { IfOk result (λ count. count.right ≤ count.rows) }
    ensures most { IfOk result (λ count. count.rows ≤ MOST_ROWS) }
{
    let Some(mut file) = open(rt, name)? else {
        return Ok(Count::default());
    };
    let count = try_rows(&mut file, words, is_right)?;
    println!(rt; "{name}: {count}")?;
    Ok(count)
}
