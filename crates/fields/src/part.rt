// Parts of a string of bytes: one that is read, and the room that a writer needs.
ghost use Rattle.std.specs.Prelude.{◌≡◌, true, false, drop, MatchResult};
ghost use Rattle.refusals.specs.declared.Refusal.TheVariants as refusal;
ghost use Rattle.fields.specs.Bytes.{has_bytes};

use crate::bytes::has_bytes;
use refusals::Refusal;

// The bytes from a place on, where there are at least so many.
#[inline(always)]
pub fn bytes_from(s: &[u8], at: usize, least: usize) -> Result<&[u8], Refusal>
    ensures { MatchResult result
        (λ part. (has_bytes s.now at least ≡ true) × (part.now ≡ drop at s.now))
        (λ e. (has_bytes s.now at least ≡ false) × (e ≡ refusal.TooFewBytes)) }
{
    if !has_bytes(s, at, least) {
        return Err(Refusal::TooFewBytes);
    }
    Ok(&s[at..])
}

// Whether a buffer has room for so many bytes from a place on. It lends no part: Rattle has no contract for a Result that lends one
// of a slice.
#[inline(always)]
pub fn check_room(out: &[u8], at: usize, size: usize) -> Result<(), Refusal>
    ensures { MatchResult result
        (λ _. has_bytes out.now at size ≡ true)
        (λ e. (has_bytes out.now at size ≡ false) × (e ≡ refusal.TooLittleRoom)) }
{
    if !has_bytes(out, at, size) {
        return Err(Refusal::TooLittleRoom);
    }
    Ok(())
}
