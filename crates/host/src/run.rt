// The thin entry, by reference: the host's guidance is copied, `call_by` or `change_by` works on the copy by value, and what it may have
// changed is put back.
ghost use Rattle.std.specs.Prelude.{◌≡◌};
ghost use Rattle.host.specs.Run as spec;
ghost use Rattle.host.specs.Code.Dispatch as code;

use calls::perform;
use guidance::plane::PlaneGuidance;
use host_answers::answer::{RunAnswer, of_answer, of_invalid, of_reply};
use laws::config::InvalidConfig;
use records::call::read_call;
use records::config::read_config;
use refusals::Refusal;
use rights::{Deed, may};

// The guidance after a call, and the call's answer. host_routes' `RouteRan` is its like: a generic of both would stand in a third crate for
// two fields.
#[derive(Clone, Copy)]
pub struct Ran {
    pub guidance: PlaneGuidance,
    pub answer: RunAnswer,
}

// A refused call, which leaves the guidance as it was.
fn refused(g: PlaneGuidance, why: Refusal) -> Ran
    ensures { result ≡ spec.refused g why }
{
    Ran {
        guidance: g,
        answer: of_answer(Err(why), 0),
    }
}

// The guidance after a configuration that passes, or the one that was there.
#[tactic(auto, unfolding(host_answers::specs::Answer::bare))]
fn judged(g: PlaneGuidance, done: Result<PlaneGuidance, InvalidConfig>, next: usize) -> Ran
    ensures { result ≡ spec.made g done next }
{
    match done {
        Err(invalid) => Ran {
            guidance: g,
            answer: of_invalid(invalid, next),
        },
        Ok(guidance) => Ran {
            guidance,
            answer: RunAnswer {
                next,
                ..RunAnswer::default()
            },
        },
    }
}

#[tactic(auto, unfolding(crate::specs::Run::run_call, crate::specs::Run::performed))]
fn run_call(g: PlaneGuidance, bytes: &[u8]) -> Ran
    ensures { result ≡ spec.run_call g bytes.now }
{
    match read_call(bytes, 0) {
        Err(why) => refused(g, why),
        Ok(read) => {
            let done = perform(g, read.call);
            Ran {
                guidance: done.guidance,
                answer: of_reply(done.reply, read.next),
            }
        }
    }
}

#[tactic(auto, unfolding(crate::specs::Run::run_config, crate::specs::Run::performed, claims::specs::Calls::perform))]
fn run_config(g: PlaneGuidance, bytes: &[u8]) -> Ran
    ensures { result ≡ spec.run_config g bytes.now }
{
    match read_config(bytes, 0) {
        Err(why) => refused(g, why),
        Ok(read) => judged(g, g.set_config(read.config), read.next),
    }
}

// Not one function with `run_config`: it would need a closure's contract in place of a call.
#[tactic(auto, unfolding(crate::specs::Run::run_new))]
fn run_new(g: PlaneGuidance, bytes: &[u8]) -> Ran
    ensures { result ≡ spec.run_new g bytes.now }
{
    match read_config(bytes, 0) {
        Err(why) => refused(g, why),
        Ok(read) => judged(g, PlaneGuidance::new(read.config), read.next),
    }
}

// A change taken back (document 02, K11); no byte is read.
#[tactic(auto, unfolding(crate::specs::Run::run_back, crate::specs::Run::performed, claims::specs::Calls::perform, host_answers::specs::Answer::bare))]
fn run_back(g: PlaneGuidance) -> Ran
    ensures { result ≡ spec.run_back g }
{
    match g.take_back() {
        Err(why) => refused(g, why),
        Ok(guidance) => Ran {
            guidance,
            answer: RunAnswer::default(),
        },
    }
}

// What a number asks for. A call record is a guide or a prime, which the same callers may do. No From<u32> for Deed, here and in
// `mode`: the two tables give one number to two deeds.
#[tactic(auto, unfolding(crate::specs::Run::deed_of))]
fn deed_of(what: u32) -> Deed
    ensures { result ≡ spec.deed_of what }
{
    match what {
        0 => Deed::Guide,
        1 => Deed::SetConfig,
        2 => Deed::New,
        3 => Deed::TakeBack,
        _ => Deed::Other,
    }
}

// Any deed of a number but 0.
fn change(g: PlaneGuidance, deed: Deed, bytes: &[u8]) -> Ran
    ensures { result ≡ code.change g deed bytes.now }
{
    match deed {
        Deed::SetConfig => run_config(g, bytes),
        Deed::New => run_new(g, bytes),
        Deed::TakeBack => run_back(g),
        _ => refused(g, Refusal::UnknownRequest),
    }
}

// Number 13 comes first, here and below: the right is judged before a byte is read.
#[tactic(auto, unfolding(crate::specs::Run::run_by, crate::specs::Run::run, crate::specs::Run::deed_of))]
pub fn call_by(g: PlaneGuidance, caller: u32, bytes: &[u8]) -> Ran
    ensures { result ≡ spec.run_by g caller 0 bytes.now }
{
    if may(caller, Deed::Guide) {
        run_call(g, bytes)
    } else {
        refused(g, Refusal::NoRight)
    }
}

#[tactic(auto, unfolding(crate::specs::Code::Dispatch::change_by))]
pub fn change_by(g: PlaneGuidance, caller: u32, what: u32, bytes: &[u8]) -> Ran
    ensures { result ≡ code.change_by g caller what bytes.now }
{
    let deed = deed_of(what);
    if may(caller, deed) {
        change(g, deed, bytes)
    } else {
        refused(g, Refusal::NoRight)
    }
}

// What is asked for and who asks stay numbers in what C calls: no enum of C's is safe to read as ours. The caller stays one down to `may`,
// which alone judges it.
// A call changes no configuration; since calls have a branch of their own, the kept one is not even read.
pub fn nuthkolla_run(
    guidance: &mut PlaneGuidance,
    caller: u32,
    what: u32,
    bytes: &[u8],
) -> RunAnswer
    ensures { (guidance.new ≡ (spec.run_by guidance.old caller what bytes.now).guidance) × (result ≡ (spec.run_by guidance.old caller what bytes.now).answer) }
{
    let g = *guidance;
    if what == 0 {
        let r = call_by(g, caller, bytes);
        guidance.take_over(r.guidance);
        r.answer
    } else {
        let r = change_by(g, caller, what, bytes);
        *guidance = r.guidance;
        r.answer
    }
}
