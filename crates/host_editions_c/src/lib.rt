// What C calls of `host_editions`, under its name and clause: an object of its own in the archive.
#![tactic(auto)]

ghost use Rattle.std.specs.Prelude.{◌≡◌};
ghost use Rattle.host_editions.specs.Conversion as spec;

use host_editions::Conversion;

#[unsafe(no_mangle)]
pub extern "C" fn nuthkolla_convert_record(
    bytes: &[u8],
    at: usize,
    edition: u32,
    out: &mut [u8],
    place: usize,
) -> Conversion
    ensures { (result ≡ spec.conversion edition bytes.now at out.old place) × (out.new ≡ spec.buffer_after edition bytes.now at out.old place) }
{
    host_editions::nuthkolla_convert_record(bytes, at, edition, out, place)
}
