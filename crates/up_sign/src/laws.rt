//! Laws of envelopes.
ghost use Rattle.up_sign.specs.Laws.{ValuesMeanOneOrFail, MeantFits, TextsAreRead, SealedFits, SealedIsAccepted};

use up_canon::canonical_laws;

/// A JSON value means one envelope, or none and then it has one first fault; an envelope that a value means is within
/// the limits. The text of an envelope is read as the same envelope. What is sealed is within the limits, and is accepted under the keys of its signers.
pub fn envelope_laws()
    ensures meaning { ValuesMeanOneOrFail }
    ensures fits { MeantFits }
    ensures text { TextsAreRead }
    ensures limits { SealedFits }
    ensures accepted { SealedIsAccepted }
{
    canonical_laws();
}
