// Who may do what (document 02, K9): the one place that judges a caller's right.
#![tactic(auto)]

ghost use Rattle.std.specs.Prelude.{◌≡◌};
ghost use Rattle.rights.specs.Rights as spec;

// What is done to a guidance or its route. Other: what no call is; no Option, since the right is judged before the request, and the skipper
// has that of any.
#[derive(Clone, Copy)]
pub enum Deed {
    New,
    Guide,
    Prime,
    SetConfig,
    TakeBack,
    LoadRoute,
    WriteRoute,
    RouteCall,
    ModeReport,
    GuardReport,
    Other,
}

#[derive(Clone, Copy, PartialEq, Eq)]
pub enum Caller {
    Skipper,
    Deckhand,
    Watcher,
}

// A number that is no caller's.
#[derive(Clone, Copy, PartialEq, Eq)]
pub struct UnknownCaller;

impl TryFrom<u32> for Caller {
    type Error = UnknownCaller;

    ghost try_from_gives = { λ number r. r ≡ spec.caller_of number };

    fn try_from(number: u32) -> Result<Caller, UnknownCaller> {
        match number {
            0 => Ok(Caller::Skipper),
            1 => Ok(Caller::Deckhand),
            2 => Ok(Caller::Watcher),
            _ => Err(UnknownCaller),
        }
    }
}

impl Caller {
    pub fn may(self, deed: Deed) -> bool
        ensures { result ≡ spec.right self deed }
    {
        match (self, deed) {
            (Caller::Skipper, _) => true,
            (Caller::Deckhand, Deed::Guide | Deed::Prime | Deed::RouteCall) => true,
            (_, Deed::ModeReport | Deed::GuardReport) => true,
            _ => false,
        }
    }
}

// By the caller's number: one that is no caller's has no right.
#[tactic(auto, unfolding(crate::specs::Rights::may))]
pub fn may(caller: u32, deed: Deed) -> bool
    ensures { result ≡ spec.may caller deed }
{
    Caller::try_from(caller).is_ok_and(|known| known.may(deed))
}
