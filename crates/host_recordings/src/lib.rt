// Recordings for a host in C or Rust, beside the guidance of `host`: an object of its own, so that the code of a call stays one
// piece there. A recording is compacted inside its buffer. Whoever replays records acts as the skipper (document 02, K9): there is no
// caller to judge.
#![tactic(auto)]

ghost use Rattle.std.specs.Prelude.{◌≡◌};
ghost use Rattle.replay.specs.Recording.{recording};
ghost use Rattle.compaction.specs.Compaction.{compacted, bytes_after};
ghost use Rattle.host_recordings.specs.Compaction as spec;

use compaction::{BadNumbers, BadRecording, compact};

// For C. refusal: 0 or the refusal's number; field: of refusal 1 the failing field's number; call: the number of the call whose
// record was refused, 0 for the configuration; length: the new length, 0 where the recording was refused.
#[repr(C)]
#[derive(Clone, Copy, Default)]
pub struct Compaction {
    pub refusal: u32,
    pub field: u32,
    pub call: u32,
    pub length: usize,
}

impl From<Result<usize, BadRecording>> for Compaction {
    ghost from_gives = { λ answer c. c ≡ spec.compaction_of answer };

    #[tactic(auto, using(crate::proofs::Numbers::refused))]
    fn from(answer: Result<usize, BadRecording>) -> Compaction {
        match answer {
            Ok(length) => Compaction {
                length,
                ..Compaction::default()
            },
            Err(why) => {
                let numbers = BadNumbers::from(why);
                Compaction {
                    refusal: numbers.refusal,
                    field: numbers.field,
                    call: numbers.call,
                    length: 0,
                }
            }
        }
    }
}

pub fn nuthkolla_compact(bytes: &mut [u8]) -> Compaction
    ensures { (result ≡ spec.compaction_of (compacted bytes.old (recording bytes.old))) × (bytes.new ≡ bytes_after bytes.old (recording bytes.old)) }
{
    compact(bytes).into()
}
