// The fields of a record: numbers in bytes, a map whose bit n says whether field n stands, and the loops over the fields
// that are numbers of four bytes.
#![tactic(auto)]

pub mod bytes;
pub mod numbers;
pub mod part;

ghost use Rattle.std.specs.Prelude.{◌≡◌, ◌≤◌, ◌<◌, ◌^◌, length, drop, replicate, false};
ghost use Rattle.fields.specs.Bytes.{put_at};
ghost use Rattle.fields.specs.Fields.{number_fields, ones, place_after, values_as, is_written, bit_of, map_of, body_of};

use crate::bytes::{Number, read_word, write_word};

// How many bits of a map stand.
pub fn count(map: u64) -> usize
    ensures { (result ≡ ones 64 map) × (result ≤ 64) }
{
    u64::count_ones(map) as usize
}

// Reads each number whose bit stands, and keeps what v has for the others; the place after the last. Here and in `write_values` the
// place is carried, since it moves only where a bit stands. Bytes, place and map go in apart: each group of a record has another place and
// another map.
pub fn read_values<T: Number>(s: &[u8], from: usize, map: u64, v: &mut [T]) -> usize
    requires { place_after from (length v.old) map ≤ length s.now }
    ensures { (v.new ≡ values_as T.of_bits v.old map (drop from s.now)) × (result ≡ place_after from (length v.old) map) }
{
    if map == 0 {
        return from;
    }
    let mut at = from;
    let mut m = map;
    for x in v.iter_mut() {
        let bit = m % 2;
        m = m / 2;
        if bit == 1 {
            *x = T::of_bits(read_word(&s[at..]));
            at += 4;
        }
    }
    at
}

// The map of the numbers that are written: those that are kept, and those that missing would not give. By index: three lists are
// read at once, from the last on, and of a zip that is reversed a proof knows no item.
pub fn map_of(keep: &[bool], v: &[u32], missing: &[u32]) -> u64
    requires { (length v.now ≡ length keep.now) × (length missing.now ≡ length keep.now) × (length keep.now ≤ 40) }
    ensures { (result ≡ map_of (number_fields missing.now) keep.now v.now) × (result < 2 ^ length keep.now) × (result < 2 ^ 40) }
{
    let mut m: u64 = 0;
    for i in (0..keep.len()).rev() {
        m = 2 * m + is_written(keep[i], v[i], missing[i]);
    }
    m
}

// As a digit of a map.
fn is_written(keep: bool, v: u32, missing: u32) -> u64
    ensures { (result ≡ bit_of (is_written keep v missing)) × (result < 2) }
{
    u64::from(keep || v != missing)
}

// No number is written whatever its value.
static KEEP_NONE: [bool; 40] = [false; 40];

// The map of the numbers that missing would not give, where none is written whatever its value.
pub fn changed(v: &[u32], missing: &[u32]) -> u64
    requires { (length missing.now ≡ length v.now) × (length v.now ≤ 40) }
    ensures { (result ≡ map_of (number_fields missing.now) (replicate (length v.now) false) v.now) × (result < 2 ^ length v.now) × (result < 2 ^ 40) }
{
    map_of(&KEEP_NONE[..v.len()], v, missing)
}

// Writes each number whose bit stands, from a place on; the place after the last.
pub fn write_values(part: &mut [u8], from: usize, map: u64, v: &[u32]) -> usize
    requires { place_after from (length v.now) map ≤ length part.old }
    ensures { (part.new ≡ put_at part.old from (body_of (number_fields v.now) map v.now)) × (result ≡ place_after from (length v.now) map) }
{
    if map == 0 {
        return from;
    }
    let mut to = from;
    let mut m = map;
    for x in v {
        let bit = m % 2;
        m = m / 2;
        if bit == 1 {
            write_word(&mut part[to..], *x);
            to += 4;
        }
    }
    to
}
