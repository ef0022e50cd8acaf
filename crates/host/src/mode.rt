// The reports of a guidance, the mode and the stall guard, by a caller. The guidance comes by value: no report changes it.
ghost use Rattle.std.specs.Prelude.{◌≡◌};
ghost use Rattle.host.specs.Mode as spec;

use guidance::plane::{ModeRefusal, PlaneGuidance};
use refusals::Refusal;
use rights::{Deed, may};

// For C. refusal: 0 or the refusal's number; value: of the mode 0, or 1 where the request is unsupported (the mode is always
// plane); of the stall guard 1 where it stands, else 0. Refused, the value is 0.
#[repr(C)]
#[derive(Clone, Copy)]
pub struct Report {
    pub refusal: u32,
    pub value: u32,
}

// A match, and not `is_some`: a second refusal would ask for its number here.
fn mode_value(g: PlaneGuidance) -> u32
    ensures { result ≡ spec.mode_value g }
{
    match g.flight_mode().refusal {
        None => 0,
        Some(ModeRefusal::Unsupported) => 1,
    }
}

#[tactic(auto, unfolding(crate::specs::Mode::deed_of))]
fn deed_of(what: u32) -> Deed
    ensures { result ≡ spec.deed_of what }
{
    match what {
        0 => Deed::ModeReport,
        1 => Deed::GuardReport,
        _ => Deed::Other,
    }
}

// No From a Result here: what is reported has its number in `reported`, the refusal in the table of refusals.
fn told(value: u32) -> Report
    ensures { result ≡ spec.told value }
{
    Report { refusal: 0, value }
}

fn refused(why: Refusal) -> Report
    ensures { result ≡ spec.refused why }
{
    Report {
        refusal: why.number(),
        value: 0,
    }
}

fn reported(g: PlaneGuidance, deed: Deed) -> Report
    ensures { result ≡ spec.reported g deed }
{
    match deed {
        Deed::ModeReport => told(mode_value(g)),
        Deed::GuardReport => told(u32::from(g.stall_guard())),
        _ => refused(Refusal::UnknownRequest),
    }
}

// what, a number for C: 0 the mode, 1 the stall guard. Number 13 comes first; 255 for any other number.
#[tactic(auto, unfolding(crate::specs::Mode::report_by))]
pub fn nuthkolla_report(guidance: PlaneGuidance, caller: u32, what: u32) -> Report
    ensures { result ≡ spec.report_by guidance caller what }
{
    let deed = deed_of(what);
    if may(caller, deed) {
        reported(guidance, deed)
    } else {
        refused(Refusal::NoRight)
    }
}
