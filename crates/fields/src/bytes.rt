// Numbers in bytes, low byte first.
ghost use Rattle.std.specs.Prelude.{◌≡◌, ◌++◌, ◌≤◌, ◌<◌, ◌^◌, ℕ, length, drop};
ghost use Rattle.std.specs.Float.{binary32};
ghost use Rattle.std.specs.Float.Ieee.{of_bits, to_bits};
ghost use Rattle.fields.specs.Bytes.{number_at, bytes_of, has_bytes};

// Whether s has n bytes from a place on.
pub fn has_bytes(s: &[u8], at: usize, n: usize) -> bool
    ensures { result ≡ has_bytes s.now at n }
{
    at <= s.len() && n <= s.len() - at
}

// The number that the first n bytes spell: a configuration's map takes 5, for which std has no `from_le_bytes`.
#[tactic(auto, using(crate::proofs::NumberLaw::left_fits, crate::proofs::NumberLaw::left_done))]
pub fn read_number(part: &[u8], n: usize) -> u64
    requires { (n ≤ 7) × (n ≤ length part.now) }
    ensures { (result ≡ number_at n part.now) × (result < 256 ^ n) }
{
    let mut v: u64 = 0;
    for b in part[..n].iter().rev() {
        v = 256 * v + u64::from(*b);
    }
    v
}

// The number that the first four bytes spell. Not by read_number: tried, and a waypoint was read in 40 ns in place of 28.
pub fn read_word(part: &[u8]) -> u32
    requires { 4 ≤ length part.now }
    ensures { result ≡ number_at 4 part.now }
{
    u32::from_le_bytes([part[0], part[1], part[2], part[3]])
}

// Writes the n bytes of a number, 4 or 5.
pub fn write_number(part: &mut [u8], n: usize, number: u64)
    requires { n ≤ length part.old }
    ensures { part.new ≡ bytes_of n number ++ drop n part.old }
{
    let mut v = number;
    for b in part[..n].iter_mut() {
        *b = (v % 256) as u8;
        v = v / 256;
    }
}

// Writes the four bytes of a number.
pub fn write_word(part: &mut [u8], number: u32)
    requires { 4 ≤ length part.old }
    ensures { part.new ≡ bytes_of 4 number ++ drop 4 part.old }
{
    write_number(part, 4, u64::from(number));
}

// What a field of four bytes holds: a u32 as it is, an f32 by its bits, every NaN alike.
pub trait Number: Copy {
    ghost of_bits: { ℕ → Self };

    fn of_bits(bits: u32) -> Self
        ensures { result ≡ of_bits bits };
}

impl Number for u32 {
    ghost of_bits = { λ n. n };

    fn of_bits(bits: u32) -> u32 {
        bits
    }
}

impl Number for f32 {
    ghost of_bits = { of_bits binary32 };

    fn of_bits(bits: u32) -> f32 {
        from_bits(bits)
    }
}

// The sign bit of an f32, and the bits of +infinity: above them, the sign bit left out, is every NaN.
const SIGN: u32 = 1 << 31;

const INFINITY: u32 = 0x7f800000;

// The f32 with these bits, every NaN alike: f32's own functions, here and below, leave a NaN's bits open.
pub fn from_bits(bits: u32) -> f32
    ensures { result ≡ of_bits binary32 bits }
{
    if bits % SIGN > INFINITY {
        return f32::NAN;
    }
    f32::from_bits(bits)
}

// The bits of an f32, 7fc00000 for a NaN.
pub fn to_bits(v: f32) -> u32
    ensures { result ≡ to_bits binary32 v }
{
    if v.is_nan() {
        return 0x7fc00000;
    }
    f32::to_bits(v)
}
