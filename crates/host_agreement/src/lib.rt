// Two recordings held together, for a host in C or Rust: an object of its own, so that the code of a call stays one piece in it.
// Whoever replays records acts as the skipper (document 02, K9): there is no caller to judge.
#![tactic(auto)]

ghost use Rattle.std.specs.Prelude.{◌≡◌, Ok};
ghost use Rattle.agreement.specs.Agreement.{agreement};
ghost use Rattle.host_agreement.specs.Agreed as spec;

use agreement::{Agreement, Refused, Side, agree};
use compaction::BadNumbers;

// For C. agree: 1 where they agree; else box_call and display_call: the numbers of the calls at which they part, 0 in both for the
// configuration, 0 where no call is left. whose: 0, or 1 for the box's recording, 2 for the display's, with what refused it:
// refusal, field and call as a compaction has them.
#[repr(C)]
#[derive(Clone, Copy, Default)]
pub struct Agreed {
    pub agree: u32,
    pub box_call: u32,
    pub display_call: u32,
    pub whose: u32,
    pub refusal: u32,
    pub field: u32,
    pub call: u32,
}

// A match: neither the side nor u32 is of this crate, so that no From can be written, and 0 stands for no side.
fn whose_of(side: Side) -> u32
    ensures { result ≡ spec.whose_of side }
{
    match side {
        Side::Box => 1,
        Side::Display => 2,
    }
}

impl From<Refused> for Agreed {
    ghost from_gives = { λ refused a. a ≡ spec.refused_of refused };

    #[tactic(auto, using(crate::proofs::Numbers::stopped_is))]
    fn from(refused: Refused) -> Agreed {
        let numbers = BadNumbers::from(refused.why);
        Agreed {
            whose: whose_of(refused.side),
            refusal: numbers.refusal,
            field: numbers.field,
            call: numbers.call,
            ..Agreed::default()
        }
    }
}

impl From<Agreement> for Agreed {
    ghost from_gives = { λ answer a. a ≡ spec.agreed_of (Ok answer) };

    fn from(answer: Agreement) -> Agreed {
        match answer {
            Agreement::Agree => Agreed {
                agree: 1,
                ..Agreed::default()
            },
            Agreement::PartAtConfig => Agreed::default(),
            Agreement::Part {
                box_call,
                display_call,
            } => Agreed {
                box_call: box_call.unwrap_or(0),
                display_call: display_call.unwrap_or(0),
                ..Agreed::default()
            },
        }
    }
}

pub fn nuthkolla_agree(s: &[u8], t: &[u8]) -> Agreed
    ensures { result ≡ spec.agreed_of (agreement s.now t.now) }
{
    match agree(s, t) {
        Ok(answer) => answer.into(),
        Err(refused) => refused.into(),
    }
}
