// Records of both editions for a host in C or Rust, an object of its own in the archive: a call record is converted from one
// buffer into another.
#![tactic(auto)]

ghost use Rattle.std.specs.Prelude.{◌≡◌};
ghost use Rattle.host_editions.specs.Conversion as spec;

use editions::{Converted, Edition, convert};
use refusals::Refusal;

// refusal: 0 or the refusal's number; read, written: the places after the record that was read and after the one that was
// written, 0 where there is a refusal. Numbers, since C has no Result.
#[repr(C)]
#[derive(Clone, Copy)]
pub struct Conversion {
    pub refusal: u32,
    pub read: usize,
    pub written: usize,
}

impl From<Result<Converted, Refusal>> for Conversion {
    ghost from_gives = { λ answer conversion. conversion ≡ spec.conversion_of answer };

    fn from(answer: Result<Converted, Refusal>) -> Conversion {
        match answer {
            Ok(done) => Conversion {
                refusal: 0,
                read: done.read,
                written: done.written,
            },
            Err(why) => Conversion {
                refusal: why.number(),
                read: 0,
                written: 0,
            },
        }
    }
}

// By the number of the wanted edition.
#[tactic(auto, using(crate::proofs::Editions::answer_by, crate::proofs::Editions::buffer_by))]
fn converted(
    bytes: &[u8],
    at: usize,
    edition: u32,
    out: &mut [u8],
    place: usize,
) -> Result<Converted, Refusal>
    ensures { (spec.conversion_of result ≡ spec.conversion edition bytes.now at out.old place) × (out.new ≡ spec.buffer_after edition bytes.now at out.old place) }
{
    let wanted = Edition::try_from(edition)?;
    convert(bytes, at, wanted, out, place)
}

// The edition stays a number for C.
pub fn nuthkolla_convert_record(
    bytes: &[u8],
    at: usize,
    edition: u32,
    out: &mut [u8],
    place: usize,
) -> Conversion
    ensures { (result ≡ spec.conversion edition bytes.now at out.old place) × (out.new ≡ spec.buffer_after edition bytes.now at out.old place) }
{
    converted(bytes, at, edition, out, place).into()
}
