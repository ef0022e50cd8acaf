// The route record: a 4-byte map, bits 0 to 30, whose bit 31 says that a second 4-byte map follows it, then 16 bytes for each standing
// point: north, east, altitude, cruise speed. A route's map is the two as one, 62 bits; its numbers stand in a buffer that is lent
// (no heap), four a point, in bit order.
#![tactic(auto)]

ghost use Rattle.std.specs.Prelude.{◌≡◌, ◌++◌, ◌≤◌, ◌+◌, ◌*◌, ◌/◌, length, drop, Ok};
ghost use Rattle.fields.specs.Bytes.{put_at};
ghost use Rattle.fields.specs.Numbers.{numbers_at};
ghost use Rattle.route_records.specs.Record as spec;

use fields::bytes::{from_bits, read_word, to_bits, write_number, write_word};
use fields::count;
use fields::numbers::read_all;
use fields::part::{bytes_from, check_room};
use refusals::Refusal;

// Bit 31 of the record's first map; as a number, how far the second map's bits stand above the first's in a route's map.
const SECOND: u64 = 1 << 31;

// The lowest unnamed bit of a route's map.
const UNNAMED: u64 = 1 << 62;

// What was loaded: the route's map and the place after the record, or after its maps.
#[derive(Clone, Copy, PartialEq, Eq)]
pub struct Loaded {
    pub map: u64,
    pub next: usize,
}

// Whether a map is a route's, with a point.
#[tactic(auto, unfolding(crate::specs::Record::check_map))]
pub fn check_map(map: u64) -> Result<(), Refusal>
    ensures { result ≡ spec.check_map map }
{
    if UNNAMED <= map {
        return Err(Refusal::UnknownMap);
    }
    if map == 0 {
        return Err(Refusal::NoPoint);
    }
    Ok(())
}

// A map with no second one behind it.
#[tactic(auto, unfolding(crate::specs::Record::one_map))]
fn one_map(first: u64, next: usize) -> Result<Loaded, Refusal>
    ensures { result ≡ spec.one_map first next }
{
    if first == 0 {
        return Err(Refusal::NoPoint);
    }
    Ok(Loaded { map: first, next })
}

// A map and the second one behind it, in which a bit stands.
#[tactic(auto, unfolding(crate::specs::Record::two_maps))]
fn two_maps(first: u64, second: u64, next: usize) -> Result<Loaded, Refusal>
    ensures { result ≡ spec.two_maps first second next }
{
    if SECOND <= second {
        return Err(Refusal::UnknownMap);
    }
    if second == 0 {
        return Err(Refusal::UnknownMap);
    }
    Ok(Loaded {
        map: first % SECOND + SECOND * second,
        next,
    })
}

// The maps at the front of a record: the route's map and the place after them.
#[tactic(auto, unfolding(crate::specs::Record::read_maps))]
fn read_maps(s: &[u8], at: usize) -> Result<Loaded, Refusal>
    ensures { result ≡ spec.read_maps s.now at }
{
    let one = bytes_from(s, at, 4)?;
    let first = u64::from(read_word(one));
    if first < SECOND {
        return one_map(first, at + 4);
    }
    let two = bytes_from(s, at, 8)?;
    let second = u64::from(read_word(&two[4..]));
    two_maps(first, second, at + 8)
}

// How many numbers the standing points have.
#[tactic(auto, unfolding(crate::specs::Record::number_count))]
pub fn numbers_of(map: u64) -> usize
    ensures { (result ≡ spec.number_count map) × (result ≤ 256) }
{
    4 * count(map)
}

// Whether the f32s that stand one behind the other are finite.
fn all_finite(part: &[u8]) -> bool
    ensures { result ≡ spec.all_finite (numbers_at (length part.now / 4) part.now) }
{
    let (words, _) = part.as_chunks::<4>();
    words
        .iter()
        .all(|word| from_bits(read_word(word)).is_finite())
}

// Reads the points of a route whose maps were read: their numbers go to the front of `out`, whose other numbers are kept.
#[tactic(auto, unfolding(crate::specs::Record::read_points), using(crate::proofs::NumbersLaw::numbers_long))]
fn load_numbers(s: &[u8], maps: Loaded, out: &mut [f32]) -> Result<Loaded, Refusal>
    ensures { (result ≡ spec.answer_to (spec.read_points (Ok maps) s.now) out.old) × (out.new ≡ spec.buffer_to (spec.read_points (Ok maps) s.now) out.old) }
{
    let from = maps.next;
    let n = numbers_of(maps.map);
    let part = &bytes_from(s, from, 4 * n)?[..4 * n];
    if !all_finite(part) {
        return Err(Refusal::PointNotFinite);
    }
    if out.len() < n {
        return Err(Refusal::TooLittleRoom);
    }
    read_all(part, &mut out[..n]);
    Ok(Loaded {
        map: maps.map,
        next: from + 4 * n,
    })
}

// Reads a route's record.
#[tactic(auto, unfolding(crate::specs::Record::read_route, crate::specs::Record::read_points, crate::specs::Record::load_answer, crate::specs::Record::load_buffer))]
pub fn load_route(s: &[u8], at: usize, out: &mut [f32]) -> Result<Loaded, Refusal>
    ensures { (result ≡ spec.load_answer s.now at out.old) × (out.new ≡ spec.load_buffer s.now at out.old) }
{
    let maps = read_maps(s, at)?;
    load_numbers(s, maps, out)
}

// Writes f32s one behind the other. Not `write_values`: a route has up to 248 numbers, more than a map has bits, and each stands.
// With a place that is carried: of what a loop over as_chunks_mut leaves, a proof knows the length alone.
fn write_numbers(part: &mut [u8], from: usize, numbers: &[f32])
    requires { from + 4 * length numbers.now ≤ length part.old }
    ensures { part.new ≡ put_at part.old from (spec.number_bytes numbers.now) }
{
    let mut at = from;
    for x in numbers {
        write_word(&mut part[at..], to_bits(*x));
        at += 4;
    }
}

// How many bytes a route's maps have: a second map is written only when one of its bits stands.
#[tactic(auto, using(crate::proofs::MapsLaw::one_map_long, crate::proofs::MapsLaw::two_maps_long))]
fn maps_size(map: u64) -> usize
    ensures { (result ≡ length (spec.maps_bytes map)) × (result ≤ 8) }
{
    if SECOND <= map {
        return 8;
    }
    4
}

#[tactic(auto, using(crate::proofs::MapsLaw::one_map_long, crate::proofs::MapsLaw::two_maps_long))]
fn write_maps(part: &mut [u8], map: u64)
    requires { length (spec.maps_bytes map) ≤ length part.old }
    ensures { part.new ≡ spec.maps_bytes map ++ drop (length (spec.maps_bytes map)) part.old }
{
    if map < SECOND {
        write_number(part, 4, map);
    } else {
        write_number(part, 4, SECOND + map % SECOND);
        write_number(&mut part[4..], 4, map / SECOND);
    }
}

// Writes a route's record from a place on; `numbers` has the route's at its front.
pub fn write_route(out: &mut [u8], at: usize, map: u64, numbers: &[f32]) -> Result<usize, Refusal>
    ensures { (result ≡ spec.write_answer out.old at map numbers.now) × (out.new ≡ spec.write_buffer out.old at map numbers.now) }
{
    check_map(map)?;
    let n = numbers_of(map);
    if numbers.len() < n {
        return Err(Refusal::TooFewBytes);
    }
    let maps = maps_size(map);
    let size = maps + 4 * n;
    check_room(out, at, size)?;
    let part = &mut out[at..];
    write_maps(part, map);
    write_numbers(part, maps, &numbers[..n]);
    Ok(at + size)
}
