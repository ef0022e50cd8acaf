// Records written for a host.
ghost use Rattle.std.specs.Prelude.{◌≡◌};
ghost use Rattle.host.specs.Writing as spec;

use call_numbers::{CallNumbers, call_of};
use host_answers::place::Place;
use laws::config::PlaneGuidanceConfig;
use laws::types::FlightRegime;
use records::call::Kind;
use records::call_writer::write_call;
use records::config::write_config;
use refusals::Refusal;

// Writes a call's record at a place; number 7 for a kind above 6 or a regime above 1, number 8 for too little room.
#[tactic(auto, using(records::proofs::CallLaw::kind_unknown, records::proofs::CallLaw::regime_unknown), unfolding(crate::specs::Writing::unknown, crate::specs::Writing::call_place, crate::specs::Writing::call_buffer))]
pub fn nuthkolla_write_call(out: &mut [u8], at: usize, call: CallNumbers) -> Place
    ensures { (result ≡ spec.call_place call out.old at) × (out.new ≡ spec.call_buffer call out.old at) }
{
    if Kind::try_from(call.kind).is_err() | FlightRegime::try_from(call.regime).is_err() {
        return Err(Refusal::UnknownKind).into();
    }
    write_call(out, at, call_of(call)).into()
}

// Writes a configuration's record at a place; number 8 for too little room.
#[tactic(auto, unfolding(crate::specs::Writing::config_place, crate::specs::Writing::config_buffer))]
pub fn nuthkolla_write_config(out: &mut [u8], at: usize, config: PlaneGuidanceConfig) -> Place
    ensures { (result ≡ spec.config_place config out.old at) × (out.new ≡ spec.config_buffer config out.old at) }
{
    write_config(out, at, config).into()
}
