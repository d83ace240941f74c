//! Names of databases, and what may be opened as one.
ghost use Rattle.std.specs.Prelude.{◌≡◌, ◌≢◌, ◌↔◌, ◌++◌, ◌∷◌, [], IsTrue, IsSome, IfOk, Some, None, codes, string_bytes};
ghost use Rattle.up_program.specs.Files.{IsBegun};

use std::alloc::{AllocError, Global};

/// Whether the name is that of a database in memory.
pub fn is_memory(name: &str) -> bool
    ensures { IsTrue result ↔ (name.now ≡ codes ":memory:") }
{
    name == ":memory:"
}

/// The name of the journal that SQLite looks for beside a database file. Of all that stand there it is the longest.
pub fn journal_of(alloc: Global, path: &str) -> Result<String, AllocError>
    ensures { IfOk result (λ name. string_bytes name ≡ path.now ++ codes "-journal") }
{
    format!(in alloc; "{path}-journal")
}

/// Whether a file of this length, none where there is no file, may be opened as a database. A file of one byte is left of some
/// other file, as of a database that was cut, unless that byte is 0: a stop while a new database is made may leave such a one.
/// Its bytes are asked for once, and those of no other file are.
pub fn may_open<F: FnMut() -> Option<Vec<u8>>>(length: Option<u64>, bytes: &mut F) -> bool
    requires { F.IsAlwaysCallable bytes.old }
    ensures other { length ≢ Some 1 → IsTrue result }
    ensures unread { length ≢ Some 1 → bytes.new ≡ bytes.old }
    ensures one { length ≡ Some 1 → (told : _) × F.step bytes.old told bytes.new × (IsTrue result ↔ IsBegun told) }
{
    length != Some(1) || is_begun(bytes())
}

/// Whether the bytes of a file are what the making of a database writes first.
fn is_begun(bytes: Option<Vec<u8>>) -> bool
    ensures { IsTrue result ↔ IsBegun bytes }
{
    match bytes {
        Some(bytes) => bytes.as_slice() == [0].as_slice(),
        None => false,
    }
}
