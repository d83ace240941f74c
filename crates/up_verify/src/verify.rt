//! Full verification: both repositories' Roots, the Director's reply, the Image repository's files, and that both say the
//! same of each image.
ghost use Rattle.std.specs.Prelude.{◌≡◌, IfOk, None, Some, nat_lt};
ghost use Rattle.up_verify.specs.Files.{of_file, check_files as check_files_of};
ghost use Rattle.up_verify.specs.Results.{Verifies, lacked_memory as lacked_memory_of};
ghost use Rattle.up_verify.specs.Roots.{follow as follow_roots, latest as latest_of};
ghost use Rattle.up_verify.specs.Verifiers.{verifier};
ghost use Rattle.up_verify.specs.Verify.{are_of_version as are_of_version_as, check_reply as check_reply_of, check_some as check_some_of, check_images as check_images_of, check_installs as check_installs_of, verify as verify_of, is_root as is_root_of, is_expired as is_expired_of, is_old as is_old_of, with_roots as with_roots_of};
ghost use Rattle.up_verify.specs.declared.refused.Role.TheVariants.{Root as RootRole};
ghost use Rattle.up_roles.specs.declared.repository.Repository.TheVariants.{Director, Image};

use crate::asked::Asked;
use crate::files::check_files;
use crate::installs::check_each;
use crate::known_key::KnownKey;
use crate::refused::{Fault, Refused, Role};
use crate::roots::{Followed, follow, same_repository};
use crate::served::{Accepted, Checked, Reply, Served};
use crate::trust::{OwnEcu, Primary, Trust, Versions};
use std::alloc::{AllocError, Global};
use up_canon::bytes::Bytes;
use up_canon::ident::Ident;
use up_canon::listed::{Duplicate, Listed};
use up_canon::refusal::Refusal;
use up_metadata::role_files::RoleTexts;
use up_roles::repository::Repository;
use up_roles::root::RootFile;
use up_roles::targets::{Target, TargetsFile};
use up_shown::shows::Shows;

/// What was served to the Primary, verified in full at this moment, in seconds (Uptane Standard 2.1.0, 5.4.4.2): what it is to
/// install, and what it trusts then. Else the first check that it doesn't pass, or that there is no memory.
#[tactic(auto, unfolding(crate::specs::Verify::verify, up_canon::specs::Steps::and_then))]
pub fn verify<K: Shows>(
    alloc: Global,
    scheme: &K,
    held: &[KnownKey],
    now: u64,
    primary: &Primary,
    served: &Served,
) -> Result<Accepted, Refused>
    ensures { Verifies result (verify_of (verifier (K.rules scheme.now) (K.reading scheme.now) held.now) now primary.now served.now) }
{
    let roots = served.director_roots.as_slice();
    let director = latest_root(
        alloc,
        scheme,
        held,
        Repository::Director,
        now,
        &primary.director,
        roots,
    )?;
    match check_reply(
        alloc,
        scheme,
        held,
        now,
        &primary.vehicle,
        &director,
        &served.reply,
    ) {
        Ok(Checked { versions, targets }) => {
            let trust = trusting(director, versions);
            check_installs(alloc, scheme, held, now, primary, served, trust, targets)
        }
        Err(refused) => {
            // Dropped by name: at the end of a scope it would be proved part by part.
            drop(director);
            Err(refused)
        }
    }
}

// ---- Roots

/// The latest Root of the repository, which alone must not have expired.
#[tactic(auto, using(crate::proofs::Verifying::latest_followed))]
fn latest_root<K: Shows>(
    alloc: Global,
    scheme: &K,
    held: &[KnownKey],
    repository: Repository,
    now: u64,
    trust: &Trust,
    roots: &[Bytes],
) -> Result<Trust, Refused>
    ensures { Verifies result (of_file repository RootRole (latest_of now (follow_roots (verifier (K.rules scheme.now) (K.reading scheme.now) held.now) repository trust.now roots.now))) }
{
    let copied = trust.copy(alloc)?;
    let followed = follow(alloc, scheme, held, repository, copied, roots);
    named_latest(repository, now, followed)
}

fn named_latest(repository: Repository, now: u64, followed: Followed) -> Result<Trust, Refused>
    ensures { result ≡ of_file repository RootRole (latest_of now followed) }
{
    let Followed { trust, fault } = followed;
    match fault {
        None if is_fresh(now, &trust.root) => Ok(trust),
        None => {
            drop(trust);
            Err(Refused::File(repository, Role::Root, Fault::Expired))
        }
        Some(fault) => {
            drop(trust);
            Err(Refused::File(repository, Role::Root, fault))
        }
    }
}

fn is_fresh(now: u64, root: &RootFile) -> bool
    ensures { result ≡ nat_lt now root.now.expires }
{
    now < root.expires.get()
}

// ---- the Director's reply

#[tactic(auto, unfolding(crate::specs::Verify::check_reply, up_canon::specs::Steps::and_then))]
fn check_reply<K: Shows>(
    alloc: Global,
    scheme: &K,
    held: &[KnownKey],
    now: u64,
    vehicle: &Ident,
    trust: &Trust,
    reply: &Reply,
) -> Result<Checked, Refused>
    ensures { Verifies result (check_reply_of (verifier (K.rules scheme.now) (K.reading scheme.now) held.now) now vehicle.now trust.now reply.now) }
{
    if reply.vehicle.text() != vehicle.text() {
        return Err(Refused::WrongVehicle);
    }
    if reply.root > trust.root.version {
        return Err(Refused::UnknownRoot);
    }
    if reply.root != trust.root.version {
        return Err(Refused::OldRoot);
    }
    let checked = director_files(alloc, scheme, held, now, vehicle, trust, &reply.files)?;
    if are_of_version(reply.version, checked.versions) {
        Ok(checked)
    } else {
        drop(checked);
        Err(Refused::MixedVersions)
    }
}

/// The Director's files for the vehicle.
fn director_files<K: Shows>(
    alloc: Global,
    scheme: &K,
    held: &[KnownKey],
    now: u64,
    vehicle: &Ident,
    trust: &Trust,
    texts: &RoleTexts,
) -> Result<Checked, Refused>
    ensures { Verifies result (check_files_of (verifier (K.rules scheme.now) (K.reading scheme.now) held.now) (record { repository = Director; vehicle = Some vehicle.now; moment = now }) trust.now texts.now) }
{
    let asked = Asked {
        repository: Repository::Director,
        vehicle: Some(vehicle.copy(alloc)?),
        moment: now,
    };
    check_files(alloc, scheme, held, &asked, trust, texts)
}

fn are_of_version(version: u64, versions: Versions) -> bool
    ensures { result ≡ are_of_version_as version versions }
{
    versions.timestamp == version && versions.snapshot == version && versions.targets == version
}

fn trusting(trust: Trust, versions: Versions) -> Trust
    ensures { result ≡ record { root = trust.root; versions = versions } }
{
    Trust {
        root: trust.root,
        versions,
    }
}

// ---- the Image repository

/// What is installed and trusted then, once the Director's files are verified.
#[tactic(auto, using(crate::proofs::Verifying::installs_refused))]
fn check_installs<K: Shows>(
    alloc: Global,
    scheme: &K,
    held: &[KnownKey],
    now: u64,
    primary: &Primary,
    served: &Served,
    director: Trust,
    targets: TargetsFile,
) -> Result<Accepted, Refused>
    ensures { Verifies result (check_installs_of (verifier (K.rules scheme.now) (K.reading scheme.now) held.now) now primary.now served.now director targets targets.targets) }
{
    let assigned = targets.targets.as_slice();
    match check_images(alloc, scheme, held, now, primary, served, assigned) {
        Ok(image) => match accepted(alloc, primary, director, image, targets) {
            Ok(accepted) => Ok(accepted),
            Err(_) => Err(Refused::Memory),
        },
        Err(refused) => {
            drop(director);
            drop(targets);
            Err(refused)
        }
    }
}

/// What is trusted of the Image repository: as before where nothing is assigned.
#[tactic(auto, unfolding(crate::specs::Verify::check_images))]
fn check_images<K: Shows>(
    alloc: Global,
    scheme: &K,
    held: &[KnownKey],
    now: u64,
    primary: &Primary,
    served: &Served,
    targets: &[Target],
) -> Result<Trust, Refused>
    ensures { Verifies result (check_images_of (verifier (K.rules scheme.now) (K.reading scheme.now) held.now) now primary.now served.now targets.now) }
{
    match targets {
        [] => Ok(primary.image.copy(alloc)?),
        [_, ..] => check_some(alloc, scheme, held, now, primary, served, targets),
    }
}

/// Else its files are verified by its own Root, and then each target.
#[tactic(auto, unfolding(crate::specs::Verify::check_some, up_canon::specs::Steps::and_then))]
fn check_some<K: Shows>(
    alloc: Global,
    scheme: &K,
    held: &[KnownKey],
    now: u64,
    primary: &Primary,
    served: &Served,
    targets: &[Target],
) -> Result<Trust, Refused>
    ensures { Verifies result (check_some_of (verifier (K.rules scheme.now) (K.reading scheme.now) held.now) now primary.now served.now targets.now) }
{
    let roots = served.image_roots.as_slice();
    let image = latest_root(
        alloc,
        scheme,
        held,
        Repository::Image,
        now,
        &primary.image,
        roots,
    )?;
    match image_files(alloc, scheme, held, now, &image, &served.image) {
        Ok(
            Checked {
                versions,
                targets: listed,
            },
        ) => {
            let tested = check_each(alloc, primary, listed.targets.as_slice(), targets);
            drop(listed);
            match tested {
                Ok(()) => Ok(trusting(image, versions)),
                Err(refused) => {
                    drop(image);
                    Err(refused)
                }
            }
        }
        Err(refused) => {
            drop(image);
            Err(refused)
        }
    }
}

/// The Image repository's files, which name no vehicle.
fn image_files<K: Shows>(
    alloc: Global,
    scheme: &K,
    held: &[KnownKey],
    now: u64,
    trust: &Trust,
    texts: &RoleTexts,
) -> Result<Checked, Refused>
    ensures { Verifies result (check_files_of (verifier (K.rules scheme.now) (K.reading scheme.now) held.now) (record { repository = Image; vehicle = None; moment = now }) trust.now texts.now) }
{
    let asked = Asked {
        repository: Repository::Image,
        vehicle: None,
        moment: now,
    };
    check_files(alloc, scheme, held, &asked, trust, texts)
}

fn accepted(
    alloc: Global,
    primary: &Primary,
    director: Trust,
    image: Trust,
    targets: TargetsFile,
) -> Result<Accepted, AllocError>
    ensures { IfOk result (λ accepted. accepted ≡ record { next = record primary.now { director = director; image = image }; targets = targets; installs = targets.targets }) }
{
    match trusted_next(alloc, primary, director, image) {
        Ok(next) => match targets.targets.copy(alloc) {
            Ok(installs) => Ok(Accepted {
                next,
                targets,
                installs,
            }),
            Err(fault) => {
                drop(next);
                drop(targets);
                Err(fault)
            }
        },
        Err(fault) => {
            drop(targets);
            Err(fault)
        }
    }
}

/// What a Primary knows of its vehicle, in memory of its own, with what it trusts from now on.
fn trusted_next(
    alloc: Global,
    primary: &Primary,
    director: Trust,
    image: Trust,
) -> Result<Primary, AllocError>
    ensures { IfOk result (λ next. next ≡ record primary.now { director = director; image = image }) }
{
    match own_copy(alloc, primary) {
        Ok(
            Own {
                vehicle,
                ecus,
                replaced,
            },
        ) => Ok(Primary {
            vehicle,
            ecus,
            replaced,
            director,
            image,
        }),
        Err(fault) => {
            drop(director);
            drop(image);
            Err(fault)
        }
    }
}

/// What a Primary knows of its vehicle.
#[derive(Drop)]
struct Own {
    vehicle: Ident,
    ecus: Listed<OwnEcu>,
    replaced: Listed<Ident>,
}

fn own_copy(alloc: Global, primary: &Primary) -> Result<Own, AllocError>
    ensures { IfOk result (λ own. own ≡ record { vehicle = primary.now.vehicle; ecus = primary.now.ecus; replaced = primary.now.replaced }) }
{
    Ok(Own {
        vehicle: primary.vehicle.copy(alloc)?,
        ecus: primary.ecus.copy(alloc)?,
        replaced: primary.replaced.copy(alloc)?,
    })
}

// ---- what follows

/// Whether what was refused was good once, so that one new manifest brings another reply: an older Root, a Director's file that
/// has expired, or an ECU that was replaced.
pub fn is_old(refused: &Refused) -> bool
    ensures { result ≡ is_old_of refused.now }
{
    match refused {
        Refused::OldRoot => true,
        Refused::ReplacedEcu(_) => true,
        Refused::File(repository, role, fault) => {
            same_repository(*repository, Repository::Director)
                && !is_root(*role)
                && is_expired(fault)
        }
        _ => false,
    }
}

fn is_root(role: Role) -> bool
    ensures { result ≡ is_root_of role }
{
    matches!(role, Role::Root)
}

fn is_expired(fault: &Fault) -> bool
    ensures { result ≡ is_expired_of fault.now }
{
    matches!(fault, Fault::Expired)
}

/// What a Primary trusts where what was served is refused: the Roots of both repositories that were verified.
pub fn with_roots<K: Shows>(
    alloc: Global,
    scheme: &K,
    held: &[KnownKey],
    primary: &Primary,
    served: &Served,
) -> Result<Primary, AllocError>
    ensures { IfOk result (λ next. next ≡ with_roots_of (verifier (K.rules scheme.now) (K.reading scheme.now) held.now) primary.now served.now) }
{
    let roots = served.director_roots.as_slice();
    let before = &primary.director;
    match trusted_behind(alloc, scheme, held, Repository::Director, before, roots) {
        Ok(director) => {
            let roots = served.image_roots.as_slice();
            let before = &primary.image;
            match trusted_behind(alloc, scheme, held, Repository::Image, before, roots) {
                Ok(image) => trusted_next(alloc, primary, director, image),
                Err(fault) => {
                    drop(director);
                    Err(fault)
                }
            }
        }
        Err(fault) => Err(fault),
    }
}

/// What is trusted behind these Roots.
fn trusted_behind<K: Shows>(
    alloc: Global,
    scheme: &K,
    held: &[KnownKey],
    repository: Repository,
    trust: &Trust,
    roots: &[Bytes],
) -> Result<Trust, AllocError>
    ensures { IfOk result (λ t. t ≡ (follow_roots (verifier (K.rules scheme.now) (K.reading scheme.now) held.now) repository trust.now roots.now).trust) }
{
    let copied = trust.copy(alloc)?;
    let Followed { trust, fault } = follow(alloc, scheme, held, repository, copied, roots);
    let lacked = lacked_memory(&fault);
    drop(fault);
    if lacked {
        drop(trust);
        return Err(AllocError);
    }
    Ok(trust)
}

fn lacked_memory(fault: &Option<Fault>) -> bool
    ensures { result ≡ lacked_memory_of fault.now }
{
    match fault {
        Some(Fault::Unread(Refusal::Memory)) => true,
        _ => false,
    }
}
