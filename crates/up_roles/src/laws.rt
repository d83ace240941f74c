//! Laws of role files.
ghost use Rattle.up_roles.specs.Laws.{RootsAreRead, TargetsAreRead, SnapshotsAreRead, TimestampsAreRead, MeaningLaws};

use up_canon::moment::moment_laws;
use up_sign::laws::envelope_laws;

/// What was written is read again as the same file, with the envelope that was sealed. The file has to be within the
/// limits of its role and its text within those of a file; in a Root file keys of one identifier have to be one key.
pub fn role_laws()
    ensures root { RootsAreRead }
    ensures targets { TargetsAreRead }
    ensures snapshot { SnapshotsAreRead }
    ensures timestamp { TimestampsAreRead }
{
    moment_laws();
    envelope_laws();
}

/// The bytes of a file mean one file with its envelope, or none and then they have one first fault: that is what
/// `read_root`, `read_targets`, `read_snapshot` and `read_timestamp` answer. What a payload means is within the limits of
/// its role, so that a file that was read can be written again.
pub fn meaning_laws()
    ensures { MeaningLaws }
{
    moment_laws();
}
