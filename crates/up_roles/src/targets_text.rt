//! Writing Targets files.
ghost use Rattle.std.specs.Prelude.{◌≡◌, ◌≤◌, ◌++◌, [], IsTrue, IfOk, OnOk, codes, length, map, option_map, string_bytes, true, unwrap_or};
ghost use Rattle.std.specs.List.{list_all};
ghost use Rattle.serde_json.specs.Data.{string};
ghost use Rattle.up_canon.specs.Build.{list_with};
ghost use Rattle.up_canon.specs.Canon.{json_string, text};
ghost use Rattle.up_canon.specs.Names.{is_ident};
ghost use Rattle.up_sign.specs.Envelopes.{key_block};
ghost use Rattle.up_roles.specs.Payload.{is_named};
ghost use Rattle.up_roles.specs.Targets.{target_value, targets_payload, targets_text_of, targets_fits, target_is_typed, targets_is_typed};
ghost use Rattle.up_roles.specs.Writing.{CanSeal, IsWritten};

use crate::pieces::{push_end, push_expires, push_name, push_repository};
use crate::sealing::sealed_text;
use crate::targets::{Target, TargetsFile};
use std::alloc::{AllocError, Global};
use up_canon::bytes::Bytes;
use up_canon::ident::Ident;
use up_canon::writing::{push_file_name, push_hashes, push_number};
use up_sign::key_id::HashedKey;
use up_sign::scheme::Scheme;
use up_sign::seal::hashed_keys;

/// Bytes of room that the text of a payload gets, so that it seldom grows while it is written.
const ROOM: usize = 384;

/// Bytes of room that it gets beside for each target.
const ROOM_OF_A_TARGET: usize = 512;

/// The text of the Targets file, which is within its limits (`fits`): its envelope, signed with each of 1 to 8 secrets that
/// fit, in order.
pub fn targets_text<K: Scheme>(
    alloc: Global,
    scheme: &K,
    secrets: &[Bytes],
    file: &TargetsFile,
) -> Result<String, AllocError>
    requires signers { CanSeal (K.rules scheme.now) secrets.now }
    requires limits { IsTrue (targets_fits file.now) }
    ensures { IsWritten (targets_payload file.now) (targets_text_of (K.rules scheme.now) secrets.now file.now)
        (targets_is_typed file.now) result }
{
    let keys = hashed_keys(alloc, scheme, secrets)?;
    targets_text_by(alloc, scheme, secrets, keys.as_slice(), file)
}

/// As `targets_text`, with the secrets' keys hashed already (`up_sign::seal::hashed_keys`).
pub fn targets_text_by<K: Scheme>(
    alloc: Global,
    scheme: &K,
    secrets: &[Bytes],
    keys: &[HashedKey],
    file: &TargetsFile,
) -> Result<String, AllocError>
    requires signers { CanSeal (K.rules scheme.now) secrets.now }
    requires hashed { keys.now ≡ map (key_block (K.rules scheme.now)) secrets.now }
    requires limits { IsTrue (targets_fits file.now) }
    ensures { IsWritten (targets_payload file.now) (targets_text_of (K.rules scheme.now) secrets.now file.now)
        (targets_is_typed file.now) result }
{
    let signed = targets_signed(alloc, file)?;
    sealed_text(alloc, scheme, secrets, keys, signed)
}

/// The canonical text of the payload.
fn targets_signed(alloc: Global, file: &TargetsFile) -> Result<String, AllocError>
    ensures value { IfOk result (λ t. string_bytes t ≡ text (targets_payload file.now)) }
    ensures typed { OnOk result (targets_is_typed file.now ≡ true) }
{
    let targets = file.targets.as_slice();
    let room = ROOM_OF_A_TARGET.saturating_mul(targets.len());
    let mut out = String::with_capacity(alloc, room.saturating_add(ROOM))?;
    push_expires(&mut out, file.expires)?;
    push_repository(&mut out, file.repository)?;
    out.push_str(",\"targets\":")?;
    push_targets(alloc, &mut out, targets)?;
    out.push_str(",\"type\":\"targets\"")?;
    push_end(&mut out, &file.vehicle, file.version)?;
    Ok(out)
}

/// Appends the list of the targets.
fn push_targets(alloc: Global, out: &mut String, targets: &[Target]) -> Result<(), AllocError>
    ensures value { IfOk result
        (λ _. string_bytes out.new ≡ string_bytes out.old ++ text (list_with (map target_value targets.now))) }
    ensures typed { OnOk result (list_all target_is_typed targets.now ≡ true) }
{
    out.push('[')?;
    let mut separator = "";
    for target in targets.iter() {
        out.push_str(separator)?;
        push_target(alloc, out, target)?;
        separator = ",";
    }
    out.push(']')?;
    Ok(())
}

#[tactic(auto, using(crate::proofs::PlainFiles::target_typed))]
fn push_target(alloc: Global, out: &mut String, target: &Target) -> Result<(), AllocError>
    ensures value { IfOk result (λ _. string_bytes out.new ≡ string_bytes out.old ++ text (target_value target.now)) }
    ensures typed { OnOk result (target_is_typed target.now ≡ true) }
{
    // Noted for the proof: what a filename is.
    target.file.text();
    push_ecu(out, &target.ecu)?;
    out.push_str("\"file\":")?;
    push_file_name(out, &target.file)?;
    out.push_str(",\"hardware\":")?;
    push_names(out, target.hardware.as_slice())?;
    out.push_str(",\"hashes\":")?;
    push_hashes(alloc, out, &target.sha256, &target.sha512)?;
    out.push_str(",\"length\":")?;
    push_number(out, target.length.get())?;
    out.push_str(",\"release\":")?;
    push_number(out, target.release.get())?;
    out.push_str("}")?;
    Ok(())
}

/// Begins an object with the ECU, where there is one.
fn push_ecu(out: &mut String, ecu: &Option<Ident>) -> Result<(), AllocError>
    ensures value { IfOk result (λ _. string_bytes out.new ≡ string_bytes out.old
        ++ (codes "{" ++ unwrap_or (option_map (λ name. codes "\"ecu\":" ++ (json_string name ++ codes ",")) ecu.now) [])) }
    ensures typed { OnOk result (is_named ecu.now ≡ true) }
{
    out.push('{')?;
    if let Some(name) = ecu {
        out.push_str("\"ecu\":")?;
        push_name(out, name)?;
        out.push(',')?;
    }
    Ok(())
}

/// Appends the list of the names.
fn push_names(out: &mut String, names: &[Ident]) -> Result<(), AllocError>
    ensures value { IfOk result
        (λ _. string_bytes out.new ≡ string_bytes out.old ++ text (list_with (map string names.now))) }
    ensures typed { OnOk result (list_all is_ident names.now ≡ true) }
{
    out.push('[')?;
    let mut separator = "";
    for name in names.iter() {
        out.push_str(separator)?;
        push_name(out, name)?;
        separator = ",";
    }
    out.push(']')?;
    Ok(())
}
