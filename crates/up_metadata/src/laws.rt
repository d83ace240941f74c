//! The laws of the files.
ghost use Rattle.up_metadata.specs.Signed.{RootFilesAreSigned, RoleFilesAreSigned};

/// Every file is an envelope over the text of its payload, and is accepted under the keys and the threshold of its role, if its
/// keys fit. A Root file is also accepted under those of the root version before.
pub fn files_are_signed()
    ensures roots { RootFilesAreSigned }
    ensures roles { RoleFilesAreSigned }
{}
