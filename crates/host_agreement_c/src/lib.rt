// What C calls of `host_agreement`, under its name and clause: an object of its own in the archive.
#![tactic(auto)]

ghost use Rattle.std.specs.Prelude.{◌≡◌};
ghost use Rattle.agreement.specs.Agreement.{agreement};
ghost use Rattle.host_agreement.specs.Agreed as spec;

use host_agreement::Agreed;

#[unsafe(no_mangle)]
pub extern "C" fn nuthkolla_agree(s: &[u8], t: &[u8]) -> Agreed
    ensures { result ≡ spec.agreed_of (agreement s.now t.now) }
{
    host_agreement::nuthkolla_agree(s, t)
}
