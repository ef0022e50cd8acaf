// The configuration record: a 5-byte map, bit n-1 for field n, then fields.
ghost use Rattle.std.specs.Prelude.{◌≡◌, false, ◌++◌, ◌≤◌, ◌<◌, ◌+◌, ◌*◌, ◌^◌, length, replicate};
ghost use Rattle.laws.specs.Config.{default};
ghost use Rattle.fields.specs.Bytes.{bytes_of, put_at};
ghost use Rattle.fields.specs.Fields.{place_after, map_of, body_of, number_fields};
ghost use Rattle.fields.specs.Numbers.{floats_of, bits_of};
ghost use Rattle.records.specs.Config.{config_fields, read_config, config_record};
ghost use Rattle.fields.specs.Writing.{answer_of, buffer_of};

use config_numbers::{bits_of, config_of_bits, default_bits};
use fields::bytes::{read_number, write_number};
use fields::part::{bytes_from, check_room};
use fields::{changed, count, read_values, write_values};
use laws::config::PlaneGuidanceConfig;
use refusals::Refusal;

// Bit n-1 of the map is field n; from this one on no bit is named.
const FIRST_UNNAMED: u64 = 1 << 33;

// A configuration that was read, and the place after its record.
#[derive(Clone, Copy)]
pub struct ReadConfig {
    pub config: PlaneGuidanceConfig,
    pub next: usize,
}

pub fn read_config(s: &[u8], at: usize) -> Result<ReadConfig, Refusal>
    ensures { result ≡ read_config s.now at }
{
    let start = bytes_from(s, at, 5)?;
    let map = read_number(start, 5);
    if FIRST_UNNAMED <= map {
        return Err(Refusal::UnknownMap);
    }
    let size = 5 + 4 * count(map);
    bytes_from(s, at, size)?;
    let mut v = default_bits();
    read_values(s, at + 5, map, &mut v);
    Ok(ReadConfig {
        config: config_of_bits(v),
        next: at + size,
    })
}

// The map of the numbers that are written: those whose bits are not the default's.
fn config_map(v: [u32; 33]) -> u64
    ensures { (result ≡ map_of config_fields (replicate 33 false) v) × (result < 2 ^ 33) }
{
    let missing = default_bits();
    changed(&v, &missing)
}

pub fn write_config(out: &mut [u8], at: usize, c: PlaneGuidanceConfig) -> Result<usize, Refusal>
    ensures { (result ≡ answer_of out.old at (config_record c)) × (out.new ≡ buffer_of out.old at (config_record c)) }
{
    let v = bits_of(c);
    let map = config_map(v);
    let size = 5 + 4 * count(map);
    check_room(out, at, size)?;
    write_fields(&mut out[at..], map, &v);
    Ok(at + size)
}

// Writes a map of five bytes and the numbers that stand in it.
fn write_fields(part: &mut [u8], map: u64, v: &[u32])
    requires { place_after 5 (length v.now) map ≤ length part.old }
    ensures { part.new ≡ put_at part.old 0 (bytes_of 5 map ++ body_of (number_fields v.now) map v.now) }
{
    write_number(part, 5, map);
    write_values(part, 5, map, v);
}
