//! The rows of files that are served, read and written.
ghost use Rattle.std.specs.Prelude.{◌≡◌, IfOk, IsUtf8, map, string_bytes};
ghost use Rattle.up_machine.specs.Files.{numbered_root_name};
ghost use Rattle.up_store.specs.Lines.{file_line, root_file_lines, role_file_lines};
ghost use Rattle.up_store.specs.Shown.{file_read};
ghost use Rattle.up_store.specs.Typed.{AreTypedTexts};

use crate::column_values::words_at;
use crate::keys::repository_word;
use crate::store::StoreFault;
use sqlite::Row;
use std::alloc::{AllocError, Global};
use up_canon::text::Text;
use up_machine::decision::RootRows;
use up_metadata::role_files::RoleTexts;
use up_roles::repository::Repository;
use up_tables::reading::RowReading;
use up_tables::repo_file::FileRow;

/// The text of a file that a repository serves.
#[derive(Drop)]
pub struct ServedFile {
    pub repository: Text,
    pub name: Text,
    pub body: Text,
}

/// How a row of `repo_file` is read.
pub struct FileReading;

impl RowReading for FileReading {
    ghost use Rattle.up_store.specs.Lines.{file_row};
    ghost use Rattle.up_store.specs.ReadAs.{SaysFile};
    ghost use Rattle.up_store.specs.Typed.{IsTypedFile};

    type Item = ServedFile;

    ghost says = { SaysFile };

    ghost fits = { IsTypedFile };

    ghost line = { file_row };

    fn read(_: Global, row: &Row) -> Result<ServedFile, StoreFault> {
        Ok(ServedFile {
            repository: words_at(row, 0)?,
            name: words_at(row, 1)?,
            body: words_at(row, 2)?,
        })
    }
}

/// The row of a file.
fn file_of<'a>(repository: Repository, name: &'a str, body: &'a Text) -> FileRow<'a>
    ensures same { file_read result ≡ file_line repository name.now body.now }
    ensures typed { IsUtf8 body.now }
{
    FileRow {
        repository: repository_word(repository),
        name,
        body: body.as_str(),
    }
}

/// The rows of the image repository's files that are made together.
pub fn role_files<'a>(texts: &'a RoleTexts) -> [FileRow<'a>; 3]
    ensures same { map file_read result ≡ role_file_lines texts.now }
    ensures typed { AreTypedTexts texts.now }
{
    [
        file_of(Repository::Image, "targets.json", &texts.targets),
        file_of(Repository::Image, "snapshot.json", &texts.snapshot),
        file_of(Repository::Image, "timestamp.json", &texts.timestamp),
    ]
}

/// The filename of the Root files of this version, as `1.root.json`.
pub fn root_name(alloc: Global, number: u64) -> Result<String, AllocError>
    ensures { IfOk result (λ name. string_bytes name ≡ numbered_root_name number) }
{
    format!(in alloc; "{number}.root.json")
}

/// The rows of the Root files of a new version, which is the latest, too; the names are those of each repository's number.
pub fn root_files<'a>(new: &'a RootRows, name: &'a str, image_name: &'a str) -> [FileRow<'a>; 4]
    requires name { name.now ≡ numbered_root_name new.now.founding.root }
    requires image_name { image_name.now ≡ numbered_root_name new.now.founding.image_root }
    ensures same { map file_read result ≡ root_file_lines new.now }
    ensures typed { IsUtf8 new.now.director × IsUtf8 new.now.image }
{
    [
        file_of(Repository::Director, name, &new.director),
        file_of(Repository::Director, "root.json", &new.director),
        file_of(Repository::Image, image_name, &new.image),
        file_of(Repository::Image, "root.json", &new.image),
    ]
}
