// What C calls of `host_recordings`, under its name and clause: an object of its own in the archive.
#![tactic(auto)]

ghost use Rattle.std.specs.Prelude.{◌≡◌};
ghost use Rattle.replay.specs.Recording.{recording};
ghost use Rattle.compaction.specs.Compaction.{compacted, bytes_after};
ghost use Rattle.host_recordings.specs.Compaction as spec;

use host_recordings::Compaction;

#[unsafe(no_mangle)]
pub extern "C" fn nuthkolla_compact(bytes: &mut [u8]) -> Compaction
    ensures { (result ≡ spec.compaction_of (compacted bytes.old (recording bytes.old))) × (bytes.new ≡ bytes_after bytes.old (recording bytes.old)) }
{
    host_recordings::nuthkolla_compact(bytes)
}
