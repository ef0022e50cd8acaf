// Why a call, a record or a recording is refused, and the numbers that hosts and lines give for it.
#![tactic(auto)]

ghost use Rattle.std.specs.Prelude.{◌≡◌};
ghost use Rattle.refusals.specs.Numbers.{number};

// With their numbers; 1 is a configuration's, which names the failing field (`laws::config::InvalidConfig`).
#[derive(Clone, Copy, PartialEq, Eq)]
pub enum Refusal {
    TimeStep = 2,
    PitchCap = 3,
    NotFinite = 4,
    TooFewBytes = 5,
    UnknownMap = 6,
    UnknownKind = 7,
    TooLittleRoom = 8,
    TooManyCalls = 9,
    NoPoint = 10,
    PointNotFinite = 11,
    StepCount = 12,
    NoRight = 13,
    NothingToTakeBack = 14,
    OtherEdition = 15,
    UnknownRequest = 255,
}

impl Refusal {
    // No From: `into()` does not say that the number is meant.
    pub fn number(self) -> u32
        ensures { result ≡ number self }
    {
        self as u32
    }
}
