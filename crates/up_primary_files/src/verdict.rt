//! The verdict as text: what is to be installed, or the named refusal.
ghost use Rattle.std.specs.Prelude.{◌≡◌, ◌++◌, ◌∷◌, IfOk, codes, flat_map, string_bytes};
ghost use Rattle.up_primary_files.specs.Verdicts.{apart as apart_of, repository_word as repository_word_of, role_word as role_word_of, fault_text as fault_text_of, refused_text as refused_text_of, refused_word as refused_word_of, ecu_text, hash_text, second_hash_text, names_text, hashes_text, install_line, verdict_text};
ghost use Rattle.std.specs.Prelude.{Err};

use std::alloc::{AllocError, Global};
use up_canon::ident::Ident;
use up_canon::writing::push_number;
use up_roles::repository::Repository;
use up_roles::targets::Target;
use up_verify::refused::{Fault, Refused, Role};
use up_verify::verify::is_old;

// ---- what is to be installed

/// `accepted`, and a line for each target: `install`, the ECU, the filename, the length, the SHA-256, the release, and the
/// SHA-512 where there is one.
pub(crate) fn accepted_text(alloc: Global, installs: &[Target]) -> Result<String, AllocError>
    ensures { IfOk result (λ text. string_bytes text ≡ codes "accepted\n" ++ flat_map install_line installs.now) }
{
    let mut out = "accepted\n".to_string(alloc)?;
    push_installs(alloc, &mut out, installs)?;
    Ok(out)
}

fn push_installs(alloc: Global, out: &mut String, installs: &[Target]) -> Result<(), AllocError>
    ensures { IfOk result (λ _. string_bytes out.new ≡ string_bytes out.old ++ flat_map install_line installs.now) }
{
    for target in installs.iter() {
        push_install(alloc, out, target)?;
    }
    Ok(())
}

fn push_install(alloc: Global, out: &mut String, target: &Target) -> Result<(), AllocError>
    ensures { IfOk result (λ _. string_bytes out.new ≡ string_bytes out.old ++ install_line target.now) }
{
    push_names(out, target)?;
    out.push_str(" ")?;
    push_number(out, target.length.get())?;
    push_hashes(alloc, out, target)?;
    out.push_str("\n")
}

fn push_names(out: &mut String, target: &Target) -> Result<(), AllocError>
    ensures { IfOk result (λ _. string_bytes out.new ≡ string_bytes out.old ++ names_text target.now) }
{
    out.push_str("install ")?;
    push_ecu(out, &target.ecu)?;
    out.push_str(" ")?;
    out.push_str(target.file.text())
}

fn push_ecu(out: &mut String, ecu: &Option<Ident>) -> Result<(), AllocError>
    ensures { IfOk result (λ _. string_bytes out.new ≡ string_bytes out.old ++ ecu_text ecu.now) }
{
    match ecu {
        Some(ecu) => out.push_str(ecu.text()),
        None => Ok(()),
    }
}

fn push_hashes(alloc: Global, out: &mut String, target: &Target) -> Result<(), AllocError>
    ensures { IfOk result (λ _. string_bytes out.new ≡ string_bytes out.old ++ hashes_text target.now) }
{
    push_hash(alloc, out, &target.sha256[..])?;
    out.push_str(" ")?;
    push_number(out, target.release.get())?;
    push_second_hash(alloc, out, &target.sha512)
}

fn push_second_hash(
    alloc: Global,
    out: &mut String,
    hash: &Option<[u8; 64]>,
) -> Result<(), AllocError>
    ensures { IfOk result (λ _. string_bytes out.new ≡ string_bytes out.old ++ second_hash_text hash.now) }
{
    match hash {
        Some(hash) => push_hash(alloc, out, &hash[..]),
        None => Ok(()),
    }
}

fn push_hash(alloc: Global, out: &mut String, hash: &[u8]) -> Result<(), AllocError>
    ensures { IfOk result (λ _. string_bytes out.new ≡ string_bytes out.old ++ hash_text hash.now) }
{
    let digits = hex::encode(alloc, hash)?;
    out.push_str(" ")?;
    out.push_str(digits.as_str())
}

// ---- the named refusal

/// `old` or `refused`, and the refusal.
pub(crate) fn refused_line(alloc: Global, refused: &Refused) -> Result<String, AllocError>
    ensures { IfOk result (λ text. string_bytes text ≡ verdict_text (Err refused.now)) }
{
    let named = refused_text(alloc, refused)?;
    format!(in alloc; "{} {named}\n", refused_word(refused))
}

fn refused_word(refused: &Refused) -> &'static str
    ensures { result.now ≡ refused_word_of refused.now }
{
    if is_old(refused) { "old" } else { "refused" }
}

fn refused_text(alloc: Global, refused: &Refused) -> Result<String, AllocError>
    ensures { IfOk result (λ text. string_bytes text ≡ refused_text_of refused.now) }
{
    match refused {
        Refused::Memory => "Memory".to_string(alloc),
        Refused::File(repository, role, fault) => file_text(alloc, *repository, *role, fault),
        Refused::WrongVehicle => "WrongVehicle".to_string(alloc),
        Refused::UnknownRoot => "UnknownRoot".to_string(alloc),
        Refused::OldRoot => "OldRoot".to_string(alloc),
        Refused::MixedVersions => "MixedVersions".to_string(alloc),
        Refused::UnnamedEcu => "UnnamedEcu".to_string(alloc),
        Refused::ReplacedEcu(ecu) => apart(alloc, "ReplacedEcu", ecu.text()),
        Refused::UnknownEcu(ecu) => apart(alloc, "UnknownEcu", ecu.text()),
        Refused::UnknownImage(file) => apart(alloc, "UnknownImage", file.text()),
        Refused::WrongHardware(ecu) => apart(alloc, "WrongHardware", ecu.text()),
        Refused::LowerRelease(ecu) => apart(alloc, "LowerRelease", ecu.text()),
    }
}

/// Two words, apart by a space.
fn apart(alloc: Global, one: &str, other: &str) -> Result<String, AllocError>
    ensures { IfOk result (λ text. string_bytes text ≡ apart_of one.now other.now) }
{
    format!(in alloc; "{one} {other}")
}

fn file_text(
    alloc: Global,
    repository: Repository,
    role: Role,
    fault: &Fault,
) -> Result<String, AllocError>
    ensures { IfOk result (λ text. string_bytes text ≡ apart_of (apart_of (repository_word_of repository) (role_word_of role)) (fault_text_of fault.now)) }
{
    let file = apart(alloc, repository_word(repository), role_word(role))?;
    let named = fault_text(alloc, fault)?;
    apart(alloc, file.as_str(), named.as_str())
}

fn repository_word(repository: Repository) -> &'static str
    ensures { result.now ≡ repository_word_of repository }
{
    match repository {
        Repository::Director => "director",
        Repository::Image => "image",
    }
}

fn role_word(role: Role) -> &'static str
    ensures { result.now ≡ role_word_of role }
{
    match role {
        Role::Root => "root",
        Role::Timestamp => "timestamp",
        Role::Snapshot => "snapshot",
        Role::Targets => "targets",
    }
}

fn fault_text(alloc: Global, fault: &Fault) -> Result<String, AllocError>
    ensures { IfOk result (λ text. string_bytes text ≡ fault_text_of fault.now) }
{
    match fault {
        Fault::Unread(refusal) => refusal.text(alloc),
        Fault::OtherRepository => "OtherRepository".to_string(alloc),
        Fault::OtherVehicle => "OtherVehicle".to_string(alloc),
        Fault::NotNext => "NotNext".to_string(alloc),
        Fault::UnknownKey => "UnknownKey".to_string(alloc),
        Fault::NotSignedBefore => "NotSignedBefore".to_string(alloc),
        Fault::NotSigned => "NotSigned".to_string(alloc),
        Fault::NotNamed => "NotNamed".to_string(alloc),
        Fault::GoesBack => "GoesBack".to_string(alloc),
        Fault::Expired => "Expired".to_string(alloc),
    }
}
