//! The words of the command line.
ghost use Rattle.std.specs.Prelude.{◌≡◌, [], drop, IfOk, IsOk};
ghost use Rattle.std.specs.Vec.Iter.{into_iter_items};

use std::alloc::{AllocError, Global};
use std::env::Args;

/// The words behind the first, which is the program's name. Where there are none it takes no memory.
pub fn behind_name(alloc: Global, mut words: Args) -> Result<Vec<String>, AllocError>
    ensures all { IfOk result (λ behind. behind.items ≡ drop 1 (into_iter_items words)) }
    ensures none { drop 1 (into_iter_items words) ≡ [] → IsOk result }
{
    let mut behind = Vec::new(alloc);
    words.next();
    while let Some(word) = words.next() {
        behind.push(word)?;
    }
    Ok(behind)
}
