//! Files in the one spelling of their envelopes.
ghost use Rattle.std.specs.Prelude.{◌≡◌, IfOk, IsTrue, bytes_eq};
ghost use Rattle.up_canon.specs.Refusals.{Gives};
ghost use Rattle.up_sign.specs.Formats.{envelope_fits, envelope_text};
ghost use Rattle.up_roles.specs.Root.{root_in};
ghost use Rattle.up_roles.specs.Targets.{targets_in};
ghost use Rattle.up_brought.specs.Shown.{in_one_spelling};

use std::alloc::{AllocError, Global};
use up_canon::refusal::Refusal;
use up_roles::laws::meaning_laws;
use up_roles::root::{RootFile, read_root};
use up_roles::targets::{TargetsFile, read_targets};
use up_sign::envelope::Envelope;
use up_sign::laws::envelope_laws;

/// The Root that a text is, and its envelope: what `read_root` refuses, and `NotCanonical` where the envelope is spelled in
/// another way.
#[tactic(auto, unfolding(crate::specs::Shown::in_one_spelling, up_canon::specs::Steps::and_then))]
pub(crate) fn spelled_root(alloc: Global, text: &[u8]) -> Result<(RootFile, Envelope), Refusal>
    ensures { Gives result (in_one_spelling root_in text.now) }
{
    envelope_laws();
    meaning_laws();
    let (file, envelope) = read_root(alloc, text)?;
    match is_spelled(alloc, &envelope, text) {
        Ok(true) => Ok((file, envelope)),
        Ok(false) => {
            // Dropped by name: at the end of a scope they would be proved part by part.
            drop(file);
            drop(envelope);
            Err(Refusal::NotCanonical)
        }
        Err(_) => {
            drop(file);
            drop(envelope);
            Err(Refusal::Memory)
        }
    }
}

/// The Targets that a text is, and their envelope, likewise.
#[tactic(auto, unfolding(crate::specs::Shown::in_one_spelling, up_canon::specs::Steps::and_then))]
pub(crate) fn spelled_targets(
    alloc: Global,
    text: &[u8],
) -> Result<(TargetsFile, Envelope), Refusal>
    ensures { Gives result (in_one_spelling targets_in text.now) }
{
    envelope_laws();
    meaning_laws();
    let (file, envelope) = read_targets(alloc, text)?;
    match is_spelled(alloc, &envelope, text) {
        Ok(true) => Ok((file, envelope)),
        Ok(false) => {
            drop(file);
            drop(envelope);
            Err(Refusal::NotCanonical)
        }
        Err(_) => {
            drop(file);
            drop(envelope);
            Err(Refusal::Memory)
        }
    }
}

/// Whether this text is the one that this product writes of the envelope.
fn is_spelled(alloc: Global, envelope: &Envelope, text: &[u8]) -> Result<bool, AllocError>
    requires { IsTrue (envelope_fits envelope.now) }
    ensures { IfOk result (λ is. is ≡ bytes_eq text.now (envelope_text envelope.now)) }
{
    let spelling = envelope.text(alloc)?;
    Ok(text == spelling.as_str().as_bytes())
}
