// Both editions of the call record, document 02's K14: a record of either is converted to the other, and written by the
// writer's rules.
//
// The fields of both stand at the same places. So a record of one edition is spelled as the other by turning the sign bits of
// the fields with down positive, in place, and the call reader and the call writer serve both.
#![tactic(auto)]

ghost use Rattle.std.specs.Prelude.{◌≡◌, true, ◌++◌, ◌≤◌, ◌<◌, ◌+◌, length, take, drop};
ghost use Rattle.fields.specs.Bytes.{number_at, bytes_of, has_bytes};
ghost use Rattle.fields.specs.Fields.{size_of};
ghost use Rattle.fields.specs.Writing.{answer_of, buffer_of};
ghost use Rattle.records.specs.Call.{call_fields, complete};
ghost use Rattle.editions.specs.declared.Edition.TheVariants.{Second};
ghost use Rattle.editions.specs.Edition as spec;
ghost use Rattle.editions.specs.Code.Steps as step;

use fields::bytes::{read_word, write_number, write_word};
use fields::part::bytes_from;
use records::call::{Call, ReadCall, fields_size, is_complete, read_call, stands};
use records::call_writer::write_call;
use refusals::Refusal;

#[derive(Clone, Copy, PartialEq, Eq)]
pub enum Edition {
    First,
    Second,
}

impl TryFrom<u32> for Edition {
    type Error = Refusal;

    ghost try_from_gives = { λ number r. r ≡ spec.edition_of number };

    fn try_from(number: u32) -> Result<Edition, Refusal> {
        match number {
            1 => Ok(Edition::First),
            2 => Ok(Edition::Second),
            _ => Err(Refusal::UnknownRequest),
        }
    }
}

impl Edition {
    // Whether a map is one of this edition.
    fn is_of(self, map: u64) -> bool
        ensures { result ≡ spec.is_of self map }
    {
        match self {
            Edition::First => !stands(map, MARK),
            Edition::Second => stands(map, MARK),
        }
    }

    fn other(self) -> Edition
        ensures { result ≡ spec.other self }
    {
        match self {
            Edition::First => Edition::Second,
            Edition::Second => Edition::First,
        }
    }
}

// The place after the record that was read, and the place after the one that was written.
#[derive(Clone, Copy)]
pub struct Converted {
    pub read: usize,
    pub written: usize,
}

// "Bit 22 standing with no field".
const MARK: u32 = 22;

const MARKED: u64 = 1 << 22;

// The sign bit of an f32. Apart from fields' own: a public constant for one bit would be no plainer.
const SIGN: u32 = 1 << 31;

// How many fields a call record has, and how many bytes at most.
const FIELDS: u32 = 22;

const LONGEST: usize = 86;

// Whether the field of a bit has down positive in the second edition: altitude, position z, velocity z.
fn is_down(n: u32) -> bool
    ensures { result ≡ spec.is_down n }
{
    matches!(n, 11 | 15 | 18)
}

// The byte count of the field of a bit.
fn bytes_at(n: u32) -> usize
    requires { n < 22 }
    ensures { result ≡ step.bytes_at n }
{
    if n < 2 { 1 } else { 4 }
}

// Turns the sign bit of the number that the first four bytes spell.
fn turn_number(part: &mut [u8])
    requires { 4 ≤ length part.old }
    ensures { part.new ≡ bytes_of 4 (spec.flip (number_at 4 part.old)) ++ drop 4 part.old }
{
    let number = read_word(part);
    write_word(part, number.wrapping_add(SIGN));
}

// Turns a field that stands at a place, where it has down positive; the place after it.
fn turn_field(part: &mut [u8], at: usize, n: u32) -> usize
    requires { (n < 22) × (at + step.bytes_at n ≤ length part.old) }
    ensures { (part.new ≡ take at part.old ++ (step.turned_field n (step.bytes_at n) (drop at part.old) ++ drop (at + step.bytes_at n) part.old)) × (result ≡ at + step.bytes_at n) }
{
    if is_down(n) {
        turn_number(&mut part[at..]);
        return at + 4;
    }
    at + bytes_at(n)
}

// Turns the fields that stand in a map, of the record with which the bytes begin.
fn turn(part: &mut [u8], map: u64)
    requires { 4 + size_of call_fields map ≤ length part.old }
    ensures { part.new ≡ take 4 part.old ++ step.turned call_fields 0 map (drop 4 part.old) }
{
    // A place goes on by the bytes of a field only where it stands, so that no iterator gives it.
    let mut at = 4;
    for n in 0..FIELDS {
        if stands(map, n) {
            at = turn_field(part, at, n);
        }
    }
}

// ---- reading

// Reads a record of the second edition, map being its map without bit 22: its fields are turned in a copy, and the call reader
// reads them.
fn read_second(s: &[u8], at: usize, map: u64) -> Result<ReadCall, Refusal>
    requires { (has_bytes s.now at 4 ≡ true) × (number_at 4 (drop at s.now) ≡ spec.mark + map) × (complete map ≡ true) }
    ensures { result ≡ spec.read_as Second s.now at }
{
    let size = 4 + fields_size(map);
    let record = bytes_from(s, at, size)?;
    // Fixed memory, no heap.
    let mut plain = [0; LONGEST];
    plain[..size].copy_from_slice(&record[..size]);
    turn(&mut plain, map);
    write_number(&mut plain, 4, map);
    let read = read_call(&plain, 0)?;
    Ok(ReadCall {
        call: read.call,
        next: at + size,
    })
}

// A map without bit 22.
fn fields_of(map: u64) -> u64
    ensures { result ≡ spec.fields_of map }
{
    if stands(map, MARK) { map - MARKED } else { map }
}

// Reads a record of an edition.
pub fn read_as(s: &[u8], at: usize, edition: Edition) -> Result<ReadCall, Refusal>
    ensures { result ≡ spec.read_as edition s.now at }
{
    let start = bytes_from(s, at, 4)?;
    let map = u64::from(read_word(start));
    let fields = fields_of(map);
    if !is_complete(fields) {
        return Err(Refusal::UnknownMap);
    }
    if !edition.is_of(map) {
        return Err(Refusal::OtherEdition);
    }
    match edition {
        Edition::First => read_call(s, at),
        Edition::Second => read_second(s, at, fields),
    }
}

// ---- writing

// Turns a record of the first edition into one of the second, in its place.
fn turn_record(part: &mut [u8])
    requires { 4 + size_of call_fields (number_at 4 part.old) ≤ length part.old }
    ensures { part.new ≡ step.turned_record part.old }
{
    let map = u64::from(read_word(part));
    turn(part, map);
    write_number(part, 4, MARKED + map);
}

// Writes a call's record of the second edition.
fn write_second(out: &mut [u8], at: usize, call: Call) -> Result<usize, Refusal>
    ensures { (result ≡ answer_of out.old at (spec.record_as Second call)) × (out.new ≡ buffer_of out.old at (spec.record_as Second call)) }
{
    let next = write_call(out, at, call)?;
    turn_record(&mut out[at..]);
    Ok(next)
}

// Writes a call's record of an edition.
#[tactic(auto, unfolding(crate::specs::Edition::record_as))]
pub fn write_as(out: &mut [u8], at: usize, call: Call, edition: Edition) -> Result<usize, Refusal>
    ensures { (result ≡ answer_of out.old at (spec.record_as edition call)) × (out.new ≡ buffer_of out.old at (spec.record_as edition call)) }
{
    match edition {
        Edition::First => write_call(out, at, call),
        Edition::Second => write_second(out, at, call),
    }
}

// ---- converting

// Converts the record at a place to the wanted edition, and writes it at a place of a second buffer.
pub fn convert(
    s: &[u8],
    at: usize,
    wanted: Edition,
    out: &mut [u8],
    place: usize,
) -> Result<Converted, Refusal>
    ensures { (result ≡ spec.answer wanted (spec.read_as (spec.other wanted) s.now at) out.old place) × (out.new ≡ spec.buffer wanted (spec.read_as (spec.other wanted) s.now at) out.old place) }
{
    let read = read_as(s, at, wanted.other())?;
    let written = write_as(out, place, read.call, wanted)?;
    Ok(Converted {
        read: read.next,
        written,
    })
}
