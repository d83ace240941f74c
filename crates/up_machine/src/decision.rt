//! What decisions answer: new rows with all texts, or, in a first step, what is due.
use crate::answer::Reply;
use crate::rows::{Founding, Kept, VehicleRows};
use up_canon::text::Text;
use up_metadata::hashed_keys::HashedKeySet;
use up_metadata::keys::KeySet;
use up_metadata::role_files::RoleTexts;

/// A root version that is due: its number in the Director's repository and in the image repository, that one's version with
/// it, its keys, hashed, and the keys of the version before, none at a founding.
#[derive(Drop)]
pub struct NextRoot {
    pub number: u64,
    pub image_number: u64,
    pub version: u64,
    pub hashed: HashedKeySet,
    pub before: Option<KeySet>,
}

/// What a new root version changes: the founding's row, the texts of both repositories' Root files, and the image
/// repository's files.
#[derive(Drop)]
pub struct RootRows {
    pub founding: Founding,
    pub director: Text,
    pub image: Text,
    pub files: RoleTexts,
}

/// What a change of the register of images changes: the founding's row, and the image repository's files.
#[derive(Drop)]
pub struct RegisterRows {
    pub founding: Founding,
    pub files: RoleTexts,
}

/// What an accepted manifest changes: its vehicle's rows, and the row that is kept for it.
#[derive(Drop)]
pub struct AcceptedRows {
    pub vehicle: VehicleRows,
    pub kept: Kept,
}

/// What a command comes to that may be there already.
#[derive(Debug, Drop)]
pub enum Decision<N> {
    /// An equal one is there already, or is closed already.
    Already,
    /// The new rows; of `decide_image` the founding's row, with which `decide_new_image` goes on.
    New(N),
}

/// What a delivery comes to.
#[derive(Drop)]
pub enum Delivered {
    /// The manifest was accepted before: it is answered the reply that was kept for it.
    Repeat(Reply),
    /// It is accepted.
    Accepted(AcceptedRows),
}
