//! The rows of the keys of roles, read and made.
ghost use Rattle.std.specs.Prelude.{◌≡◌, ◌<◌, ◌^◌, ◌++◌, ◌∷◌, [], pos, All, Some, OnOk, IfOk, map, codes};
ghost use Rattle.sqlite.specs.declared.types.Value.TheVariants as Value;
ghost use Rattle.up_roles.specs.declared.repository.Repository.TheVariants.{Director, Image};
ghost use Rattle.std.specs.Prelude.{◌≤◌, IfErr, unwrap_or};
ghost use Rattle.up_tables.specs.declared.values.StoreFault.TheVariants.{Memory, Store};
ghost use Rattle.up_tables.specs.Forms.{FitRoleKey, role_key_row};
ghost use Rattle.up_metadata.specs.declared.keys.KeySet.{KeySet as Keys};
ghost use Rattle.up_metadata.specs.declared.keys.RepoKeys.{RepoKeys as Repo};
ghost use Rattle.up_metadata.specs.declared.keys.RoleSecrets.{RoleSecrets as Role};
ghost use Rattle.up_store.specs.Typed.{IsTypedRole, AreTypedKeys};
ghost use Rattle.up_store.specs.Lines.{repository_lines, role_lines, repository_word as word_of};
ghost use Rattle.up_store.specs.Shown.{is_key_of, secrets_of, threshold_of, IsRoleOf, AreKeysOf};

use crate::column_values::{threshold_in, words_at};
use crate::store::StoreFault;
use sqlite::Row;
use std::alloc::{AllocError, Global};
use up_canon::bytes::Bytes;
use up_canon::listed::Listed;
use up_canon::text::Text;
use up_metadata::keys::{KeySet, RepoKeys, RoleSecrets};
use up_roles::repository::Repository;
use up_tables::reading::RowReading;
use up_tables::role_key::RoleKeyRow;
use up_tables::values::{bytes_at, number_at};

/// A row of `role_key`, as it is read.
#[derive(Drop)]
pub struct RoleKey {
    pub root: u64,
    pub repository: Text,
    pub role: Text,
    pub place: u64,
    pub secret: Bytes,
    pub threshold: u64,
}

/// How a row of `role_key` is read.
pub struct KeyReading;

impl RowReading for KeyReading {
    ghost use Rattle.up_store.specs.Lines.{key_row};
    ghost use Rattle.up_store.specs.ReadAs.{SaysKey};
    ghost use Rattle.up_store.specs.Typed.{IsTypedKey};

    type Item = RoleKey;

    ghost says = { SaysKey };

    ghost fits = { IsTypedKey };

    ghost line = { key_row };

    fn read(_: Global, row: &Row) -> Result<RoleKey, StoreFault> {
        // Numbers first: where one is damaged, no text was copied yet.
        Ok(RoleKey {
            root: number_at(row, 0)?,
            place: number_at(row, 3)?,
            threshold: number_at(row, 5)?,
            repository: words_at(row, 1)?,
            role: words_at(row, 2)?,
            secret: Bytes::new(bytes_at(row, 4)?),
        })
    }
}

/// The word for a repository in the tables.
pub fn repository_word(repository: Repository) -> &'static str
    ensures { result.now ≡ word_of repository }
{
    match repository {
        Repository::Director => "director",
        Repository::Image => "image",
    }
}

// ---- read

/// The keys of both repositories among these rows, of these root versions; where the rows are of such keys, `Memory` is the one fault.
pub fn read_keys(
    alloc: Global,
    rows: &[RoleKey],
    root: u64,
    image_root: u64,
) -> Result<KeySet, StoreFault>
    ensures director { IfOk result (λ keys. AreKeysOf root (codes "director") rows.now keys.director) }
    ensures image { IfOk result (λ keys. AreKeysOf image_root (codes "image") rows.now keys.image) }
    ensures fault { (keys : Keys) → AreKeysOf root (codes "director") rows.now keys.director → AreKeysOf
        image_root (codes "image") rows.now keys.image → AreTypedKeys keys.director → AreTypedKeys keys.image → IfErr
        result (λ fault. fault ≡ Memory) }
{
    Ok(KeySet {
        director: read_repository(alloc, rows, root, "director")?,
        image: read_repository(alloc, rows, image_root, "image")?,
    })
}

/// The keys of a repository among these rows; `Memory` is the one fault where they are there.
fn read_repository(
    alloc: Global,
    rows: &[RoleKey],
    root: u64,
    repository: &str,
) -> Result<RepoKeys, StoreFault>
    ensures ok { IfOk result (λ keys. AreKeysOf root repository.now rows.now keys) }
    ensures fault { (keys : Repo) → AreKeysOf root repository.now rows.now keys → AreTypedKeys keys → IfErr result
        (λ fault. fault ≡ Memory) }
{
    Ok(RepoKeys {
        root: read_role(alloc, rows, root, repository, "root")?,
        targets: read_role(alloc, rows, root, repository, "targets")?,
        snapshot: read_role(alloc, rows, root, repository, "snapshot")?,
        timestamp: read_role(alloc, rows, root, repository, "timestamp")?,
    })
}

/// The keys of a role among these rows; `Memory` is the one fault where its threshold is a number of 32 bits.
fn read_role(
    alloc: Global,
    rows: &[RoleKey],
    root: u64,
    repository: &str,
    role: &str,
) -> Result<RoleSecrets, StoreFault>
    ensures ok { IfOk result (λ keys. IsRoleOf root repository.now role.now rows.now keys) }
    ensures fault { (keys : Role) → IsRoleOf root repository.now role.now rows.now keys → IsTypedRole keys → IfErr
        result (λ fault. fault ≡ Memory) }
{
    Ok(RoleSecrets {
        keys: read_secrets(alloc, rows, root, repository, role)?,
        threshold: read_threshold(rows, root, repository, role)?,
    })
}

/// Whether the row is of this role, in this root version.
fn is_key(row: &RoleKey, root: u64, repository: &str, role: &str) -> bool
    ensures { result ≡ is_key_of root repository.now role.now row.now }
{
    row.repository.as_str() == repository && row.role.as_str() == role && row.root == root
}

/// The secrets of a role, in the order of the rows.
fn read_secrets(
    alloc: Global,
    rows: &[RoleKey],
    root: u64,
    repository: &str,
    role: &str,
) -> Result<Listed<Bytes>, AllocError>
    ensures { IfOk result (λ keys. keys ≡ secrets_of root repository.now role.now rows.now) }
{
    let mut keys = Vec::new(alloc);
    for row in rows {
        if is_key(row, root, repository, role) {
            keys.push(Bytes::new(row.secret.as_slice().to_vec(alloc)?))?;
        }
    }
    Ok(Listed::new(keys))
}

/// The threshold of a role, as its first row has it; 0 of a role that has none.
fn read_threshold(
    rows: &[RoleKey],
    root: u64,
    repository: &str,
    role: &str,
) -> Result<u32, StoreFault>
    ensures ok { IfOk result (λ n. unwrap_or (threshold_of root repository.now role.now rows.now) 0 ≡ n) }
    ensures fault { IfErr result (λ fault. (fault ≡ Store) ×
        (2 ^ 32 ≤ unwrap_or (threshold_of root repository.now role.now rows.now) 0)) }
{
    for row in rows {
        if is_key(row, root, repository, role) {
            return threshold_in(row.threshold);
        }
    }
    Ok(0)
}

// ---- made

/// Notes for proofs that the thresholds of a repository's roles are numbers of 32 bits.
pub(crate) fn keeps_thresholds(keys: &RepoKeys)
    ensures { AreTypedKeys keys.now }
{
    keeps_threshold(&keys.root);
    keeps_threshold(&keys.targets);
    keeps_threshold(&keys.snapshot);
    keeps_threshold(&keys.timestamp);
}

fn keeps_threshold(role: &RoleSecrets) -> u32
    ensures { IsTypedRole role.now }
{
    role.threshold
}

/// The rows of the keys of a root version of each repository, the Director's first.
pub fn make_keys<'a>(
    alloc: Global,
    root: u64,
    image_root: u64,
    keys: &'a KeySet,
) -> Result<Vec<RoleKeyRow<'a>>, AllocError>
    requires root { root < 2 ^ 63 }
    requires image_root { image_root < 2 ^ 63 }
    ensures rows { IfOk result (λ made. map role_key_row made.items
        ≡ repository_lines root Director keys.now.director ++ repository_lines image_root Image keys.now.image) }
    ensures fit { IfOk result (λ made. All FitRoleKey made.items) }
{
    let mut made = Vec::new(alloc);
    make_repository(root, Repository::Director, &keys.director, &mut made)?;
    make_repository(image_root, Repository::Image, &keys.image, &mut made)?;
    Ok(made)
}

/// Appends the rows of a repository's keys.
fn make_repository<'a>(
    root: u64,
    repository: Repository,
    keys: &'a RepoKeys,
    made: &mut Vec<RoleKeyRow<'a>>,
) -> Result<(), AllocError>
    requires root { root < 2 ^ 63 }
    requires fit { All FitRoleKey made.old.items }
    ensures rows { OnOk result (map role_key_row made.new.items ≡ map role_key_row made.old.items ++ repository_lines
        root repository keys.now) }
    ensures fit { OnOk result (All FitRoleKey made.new.items) }
{
    make_role(root, repository, "root", &keys.root, made)?;
    make_role(root, repository, "targets", &keys.targets, made)?;
    make_role(root, repository, "snapshot", &keys.snapshot, made)?;
    make_role(root, repository, "timestamp", &keys.timestamp, made)
}

/// Appends the rows of a role's keys.
fn make_role<'a>(
    root: u64,
    repository: Repository,
    role: &'a str,
    keys: &'a RoleSecrets,
    made: &mut Vec<RoleKeyRow<'a>>,
) -> Result<(), AllocError>
    requires root { root < 2 ^ 63 }
    requires fit { All FitRoleKey made.old.items }
    ensures rows { OnOk result (map role_key_row made.new.items ≡ map role_key_row made.old.items ++ role_lines root
        repository role.now keys.now) }
    ensures fit { OnOk result (All FitRoleKey made.new.items) }
{
    for (place, key) in keys.keys.as_slice().iter().enumerate() {
        made.push(key_of(root, repository, role, place as u64, key, keys.threshold))?;
    }
    Ok(())
}

/// The row of a key.
fn key_of<'a>(
    root: u64,
    repository: Repository,
    role: &'a str,
    place: u64,
    key: &'a Bytes,
    threshold: u32,
) -> RoleKeyRow<'a>
    requires root { root < 2 ^ 63 }
    requires place { place < 2 ^ 63 }
    ensures row { role_key_row result ≡ Value.Int (pos root) ∷ Value.Text
        (word_of repository) ∷ Value.Text role.now ∷ Value.Int (pos place) ∷ Value.Blob key.now ∷ Value.Int
        (pos threshold) ∷ [] }
    ensures fit { FitRoleKey result }
{
    RoleKeyRow {
        root,
        repository: repository_word(repository),
        role,
        place,
        secret: key.as_slice(),
        threshold: threshold as u64,
    }
}
