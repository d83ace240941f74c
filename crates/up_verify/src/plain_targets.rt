//! The Image repository's Targets in canonical text, read without a tree of their values: that would take nine times the
//! memory of the text.
ghost use Rattle.std.specs.Prelude.{◌≡◌, ◌++◌, ◌&&◌, IsTrue, IfOk, IfSome, Ok, map};
ghost use Rattle.std.specs.List.{list_all};
ghost use Rattle.serde_json.specs.Data.{string};
ghost use Rattle.up_canon.specs.Build.{list_with};
ghost use Rattle.up_canon.specs.Canon.{text as text_of};
ghost use Rattle.up_canon.specs.HexText.{is_hash, is_second_hash};
ghost use Rattle.up_canon.specs.Names.{hardware_fits as hardware_fits_of, is_ident};
ghost use Rattle.up_roles.specs.Targets.{target_fits, target_is_typed, target_value, targets_fits, targets_in, targets_is_typed, targets_payload};
ghost use Rattle.up_roles.specs.declared.repository.Repository.TheVariants.{Image};

use crate::plain_envelope::{signatures, text_before};
use crate::plain_list::{Item, listed};
use crate::plain_members::{count_behind, file_name_behind, hashes, moment_behind};
use std::alloc::Global;
use std::str;
use up_canon::ident::Ident;
use up_canon::listed::Listed;
use up_canon::moment::moment_laws;
use up_canon::named::hardware_fits;
use up_manifest::cursor::{Cursor, Unread};
use up_roles::repository::Repository;
use up_roles::targets::{Target, TargetsFile};
use up_sign::envelope::Envelope;
use up_sign::laws::envelope_laws;

/// The most bytes that a file may have.
const LARGEST_FILE: usize = 4194304;

/// The Targets file of the Image repository that the bytes mean, and its envelope, where they are canonical text with no
/// member but those of the format, hexadecimal digits in lower case, and no quote or backslash in a text. Of other bytes none,
/// whatever they mean; none too where memory was refused, so that the general way says so.
pub(crate) fn plain_targets(alloc: Global, bytes: &[u8]) -> Option<(TargetsFile, Envelope)>
    ensures { IfSome result (λ read. targets_in bytes.now ≡ Ok read) }
{
    let Ok(text) = str::from_utf8(bytes) else {
        return None;
    };
    match enveloped(alloc, text) {
        Ok(read) => Some(read),
        Err(_) => None,
    }
}

fn enveloped(alloc: Global, text: &str) -> Result<(TargetsFile, Envelope), Unread>
    ensures { IfOk result (λ read. targets_in text.now ≡ Ok read) }
{
    envelope_laws();
    moment_laws();
    if text.len() > LARGEST_FILE {
        return Err(Unread);
    }
    let mut cursor = Cursor::new(text);
    let signatures = signatures(alloc, &mut cursor)?;
    let begun = cursor.rest;
    let file = targets_file(alloc, &mut cursor)?;
    let signed = text_before(alloc, begun, cursor.rest)?;
    if cursor.rest != "}" {
        return Err(Unread);
    }
    Ok((file, Envelope { signatures, signed }))
}

/// Takes the text that is signed.
fn targets_file(alloc: Global, cursor: &mut Cursor<'_>) -> Result<TargetsFile, Unread>
    ensures text { IfOk result (λ file. cursor.old.rest.now ≡ text_of (targets_payload file) ++ cursor.new.rest.now) }
    ensures fits { IfOk result (λ file. IsTrue (targets_fits file)) }
    ensures typed { IfOk result (λ file. IsTrue (targets_is_typed file)) }
{
    let expires = moment_behind(cursor, "{\"expires\":")?;
    cursor.pass(",\"repository\":\"image\",\"targets\":")?;
    let targets = listed::<Target>(alloc, cursor)?;
    let version = count_behind(cursor, ",\"type\":\"targets\",\"version\":")?.get();
    cursor.pass("}")?;
    if version < 1 {
        return Err(Unread);
    }
    // Noted for the proof: what a moment is.
    expires.get();
    Ok(TargetsFile {
        repository: Repository::Image,
        version,
        expires,
        vehicle: None,
        targets,
    })
}

impl Item for Target {
    ghost use Rattle.std.specs.Prelude.{◌&&◌};
    ghost use Rattle.up_roles.specs.Targets.{target_fits, target_is_typed, target_value};
    ghost use Rattle.up_roles.specs.declared.repository.Repository.TheVariants.{Image};

    ghost value_of = { target_value };

    ghost is_fit = { λ t. target_fits Image t && target_is_typed t };

    fn take(alloc: Global, cursor: &mut Cursor<'_>) -> Result<Target, Unread> {
        target(alloc, cursor)
    }
}

/// Takes a target, which names no ECU.
fn target(alloc: Global, cursor: &mut Cursor<'_>) -> Result<Target, Unread>
    ensures text { IfOk result (λ t. cursor.old.rest.now ≡ text_of (target_value t) ++ cursor.new.rest.now) }
    ensures fits { IfOk result (λ t. IsTrue (target_fits Image t && target_is_typed t)) }
{
    let file = file_name_behind(alloc, cursor, "{\"file\":")?;
    cursor.pass(",\"hardware\":")?;
    let hardware = hardware(alloc, cursor)?;
    cursor.pass(",\"hashes\":")?;
    let (sha256, sha512) = hashes(cursor)?;
    let length = count_behind(cursor, ",\"length\":")?;
    let release = count_behind(cursor, ",\"release\":")?;
    cursor.pass("}")?;
    // Noted for the proof: what a filename and counts are.
    file.text();
    length.get();
    release.get();
    Ok(Target {
        ecu: None,
        file,
        length,
        sha256,
        sha512,
        hardware,
        release,
    })
}

/// Takes the hardware that an image is for.
fn hardware(alloc: Global, cursor: &mut Cursor<'_>) -> Result<Listed<Ident>, Unread>
    ensures text { IfOk result
        (λ names. cursor.old.rest.now ≡ text_of (list_with (map string names)) ++ cursor.new.rest.now) }
    ensures fits { IfOk result (λ names. IsTrue (hardware_fits_of names)) }
    ensures typed { IfOk result (λ names. IsTrue (list_all is_ident names)) }
{
    let names = listed::<Ident>(alloc, cursor)?;
    if !hardware_fits(names.as_slice()) {
        return Err(Unread);
    }
    Ok(names)
}

impl Item for Ident {
    ghost use Rattle.serde_json.specs.Data.{string};
    ghost use Rattle.up_canon.specs.Names.{is_ident};

    ghost value_of = { string };

    ghost is_fit = { is_ident };

    fn take(alloc: Global, cursor: &mut Cursor<'_>) -> Result<Ident, Unread> {
        let text = cursor.quoted()?.to_string(alloc)?;
        let name = Ident::new(text).ok_or(Unread)?;
        // Noted for the proof: what an identifier is.
        name.text();
        Ok(name)
    }
}
