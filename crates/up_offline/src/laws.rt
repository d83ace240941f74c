//! The laws. Each function is empty: its contract is a theorem.
ghost use Rattle.up_offline.specs.Laws.{FilesAreTodays, OfflineRootsGrow, OfflineTargetsAreBrought, PublishedIsTrusted, RootsAreTodays, SecretsAreOfTheLastRoot, VersionsRise};

use up_roles::laws::meaning_laws;
use up_sign::laws::envelope_laws;

/// What is made by keys that are held is what is made today, byte for byte.
pub fn files_are_todays()
    ensures files { FilesAreTodays }
    ensures roots { RootsAreTodays }
{}

/// The texts of root versions stay, no version falls, and that of Targets stays below the image repository's.
pub fn versions_rise()
    ensures { VersionsRise }
{}

/// Root versions and Targets whose keys are kept offline are never made here: a new one was brought, and is signed for its role. So
/// is the one that takes its role offline, for which the keys that were held sign too; and a root role stays offline.
pub fn offline_files_are_brought()
    ensures roots { OfflineRootsGrow }
    ensures targets { OfflineTargetsAreBrought }
{}

/// No secret stays that the last Root doesn't list: a repository stays as it is, or its last Root was made of the keys that are
/// held, or it was brought, and what is held is of the keys that it lists.
pub fn secrets_are_of_the_last_root()
    ensures { SecretsAreOfTheLastRoot }
{}

/// Behind each publication and each refresh that is done and leaves the image repository's Targets offline, each Root leads to the
/// next from version 1 on, and the last one accepts Targets of just the registered images, the Snapshot that names them, and the
/// Timestamp that names this Snapshot.
pub fn published_files_are_trusted()
    ensures { PublishedIsTrusted }
{
    envelope_laws();
    meaning_laws();
}
