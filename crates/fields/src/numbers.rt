// Lists of f32s, their bits, and groups of them in a record.
ghost use Rattle.std.specs.Prelude.{◌≡◌, ◌≤◌, ◌-◌, ◌*◌, ◌^◌, length, drop};
ghost use Rattle.std.specs.Float.{binary32};
ghost use Rattle.std.specs.Float.Ieee.{of_bits};
ghost use Rattle.fields.specs.Fields.{place_after, values_as};
ghost use Rattle.fields.specs.Numbers.{floats_of, bits_of, numbers_at};

use crate::bytes::{from_bits, read_word, to_bits};
use crate::read_values;

// The f32s with these bits. Here and below by index: of what a zip over iter_mut leaves, a proof knows the length alone, and an
// array's `map` asks for a bound on N.
pub fn floats(bits: &[u32], v: &mut [f32])
    requires { length v.old ≡ length bits.now }
    ensures { v.new ≡ floats_of bits.now }
{
    for (i, x) in v.iter_mut().enumerate() {
        *x = from_bits(bits[i]);
    }
}

// The same of an array.
pub fn floats_of<const N: usize>(b: [u32; N]) -> [f32; N]
    ensures { result ≡ floats_of b.entry }
{
    let mut v = [0.0f32; N];
    floats(&b, &mut v);
    v
}

// The bits of f32s. A loop of its own: shared with the one above it would be a closure's contract in place of a line.
pub fn bits(v: &[f32], out: &mut [u32])
    requires { length out.old ≡ length v.now }
    ensures { out.new ≡ bits_of v.now }
{
    for (i, b) in out.iter_mut().enumerate() {
        *b = to_bits(v[i]);
    }
}

// The same of an array.
pub fn bits_of<const N: usize>(v: [f32; N]) -> [u32; N]
    ensures { result ≡ bits_of v.entry }
{
    let mut b = [0u32; N];
    bits(&v, &mut b);
    b
}

// Reads f32s that stand one behind the other.
pub fn read_all(s: &[u8], v: &mut [f32])
    requires { 4 * length v.old ≤ length s.now }
    ensures { v.new ≡ numbers_at (length v.old) s.now }
{
    let (words, _) = s[..4 * v.len()].as_chunks::<4>();
    for (i, x) in v.iter_mut().enumerate() {
        *x = from_bits(read_word(&words[i]));
    }
}

// Reads a group of f32s of which as a rule each stands: all is the map of that, handed in, since made of v's length it would ask that v
// has fewer than 64.
pub fn read_group(s: &[u8], from: usize, map: u64, all: u64, v: &mut [f32]) -> usize
    requires { (all ≡ 2 ^ length v.old - 1) × (place_after from (length v.old) map ≤ length s.now) }
    ensures { (v.new ≡ values_as (of_bits binary32) v.old map (drop from s.now)) × (result ≡ place_after from (length v.old) map) }
{
    if map != all {
        return read_values(s, from, map, v);
    }
    read_all(&s[from..], v);
    from + 4 * v.len()
}
