//! What a Primary knows and trusts, and what was served to it: the verdict, and what it knows and trusts behind it.
ghost use Rattle.std.specs.Prelude.{◌≡◌, ◌++◌, IfOk, Err, codes, flat_map, string_bytes, true, false};
ghost use Rattle.up_canon.specs.Refusals.{is_memory as is_memory_of};
ghost use Rattle.up_primary_files.specs.Verdicts.{IsJudged, verifier_by, verdict_text, install_line};
ghost use Rattle.up_verify.specs.Results.{lacks_memory as lacks_memory_of, wants_memory as wants_memory_of};
ghost use Rattle.up_verify.specs.Verifiers.{verifier};
ghost use Rattle.up_verify.specs.Verify.{with_roots as with_roots_of};

use crate::method::Method;
use crate::verdict::{accepted_text, refused_line};
use std::alloc::{AllocError, Global};
use up_canon::refusal::Refusal;
use up_ed25519::scheme::Ed25519;
use up_shown::shows::Shows;
use up_sign::hmac_sha256::HmacSha256;
use up_verify::known_key::KnownKey;
use up_verify::refused::{Fault, Refused};
use up_verify::served::{Accepted, Served};
use up_verify::trust::Primary;
use up_verify::verify::{verify, with_roots};

/// A verdict: whether all was accepted, the text that tells it, and what the Primary knows and trusts from then on.
#[derive(Drop)]
pub struct Judged {
    pub is_accepted: bool,
    pub told: String,
    pub next: Primary,
}

/// The verdict at a moment, in seconds, on what was served: full verification (Uptane Standard 2.1.0, 5.4.4.2) by this scheme,
/// with these public parts held. None for want of memory.
pub fn judge(
    alloc: Global,
    method: Method,
    held: &[KnownKey],
    now: u64,
    primary: &Primary,
    served: &Served,
) -> Result<Judged, AllocError>
    ensures { IfOk result (IsJudged (verifier_by method held.now) now primary.now served.now) }
{
    match method {
        Method::Hmac => judge_by(alloc, &HmacSha256, held, now, primary, served),
        Method::Ed25519 => judge_by(alloc, &Ed25519, held, now, primary, served),
    }
}

fn judge_by<K: Shows>(
    alloc: Global,
    scheme: &K,
    held: &[KnownKey],
    now: u64,
    primary: &Primary,
    served: &Served,
) -> Result<Judged, AllocError>
    ensures { IfOk result (IsJudged (verifier (K.rules scheme.now) (K.reading scheme.now) held.now) now primary.now served.now) }
{
    match verify(alloc, scheme, held, now, primary, served) {
        Ok(accepted) => taken(alloc, accepted),
        Err(refused) => not_taken(alloc, scheme, held, primary, served, refused),
    }
}

fn taken(alloc: Global, accepted: Accepted) -> Result<Judged, AllocError>
    ensures { IfOk result (λ it. (it.is_accepted ≡ true) × (string_bytes it.told ≡ codes "accepted\n" ++ flat_map install_line accepted.installs) × (it.next ≡ accepted.next)) }
{
    let Accepted {
        next,
        targets,
        installs,
    } = accepted;
    // Dropped by name: at the end of a scope they would be proved part by part.
    drop(targets);
    match accepted_text(alloc, installs.as_slice()) {
        Ok(told) => {
            drop(installs);
            Ok(Judged {
                is_accepted: true,
                told,
                next,
            })
        }
        Err(fault) => {
            drop(installs);
            drop(next);
            Err(fault)
        }
    }
}

fn not_taken<K: Shows>(
    alloc: Global,
    scheme: &K,
    held: &[KnownKey],
    primary: &Primary,
    served: &Served,
    refused: Refused,
) -> Result<Judged, AllocError>
    ensures { IfOk result (λ it. (wants_memory_of refused ≡ false) × (it.is_accepted ≡ false) × (string_bytes it.told ≡ verdict_text (Err refused)) × (it.next ≡ with_roots_of (verifier (K.rules scheme.now) (K.reading scheme.now) held.now) primary.now served.now)) }
{
    let told = told_refusal(alloc, &refused);
    drop(refused);
    match told {
        Ok(told) => match with_roots(alloc, scheme, held, primary, served) {
            Ok(next) => Ok(Judged {
                is_accepted: false,
                told,
                next,
            }),
            Err(fault) => Err(fault),
        },
        Err(fault) => Err(fault),
    }
}

/// What is told of a refusal, unless it came of want of memory.
fn told_refusal(alloc: Global, refused: &Refused) -> Result<String, AllocError>
    ensures { IfOk result (λ text. (wants_memory_of refused.now ≡ false) × (string_bytes text ≡ verdict_text (Err refused.now))) }
{
    if wants_memory(refused) {
        return Err(AllocError);
    }
    refused_line(alloc, refused)
}

fn wants_memory(refused: &Refused) -> bool
    ensures { result ≡ wants_memory_of refused.now }
{
    match refused {
        Refused::Memory => true,
        Refused::File(_, _, fault) => lacks_memory(fault),
        _ => false,
    }
}

fn lacks_memory(fault: &Fault) -> bool
    ensures { result ≡ lacks_memory_of fault.now }
{
    match fault {
        Fault::Unread(Refusal::Memory) => true,
        _ => false,
    }
}
