//! What the program says of itself.
ghost use Rattle.std.specs.Prelude.{◌≡◌, IfOk, map, string_bytes};
ghost use Rattle.up_program.specs.Versions.{is_version_asked, version_line};

use std::alloc::{AllocError, Global};

/// The product's version.
const VERSION: &str = "0.1.0";

/// The kit that builds it.
const KIT: &str = "rattle-kit-13f";

/// Whether there is a proof: the kit builds only what it has proved. What builds it without a proof, to try it, changes this.
const PROOF: &str = "built with a proof";

/// Whether these are the words that ask for it: `--version` alone.
pub fn asks_version(words: &[String]) -> bool
    ensures { result ≡ is_version_asked (map string_bytes words.now) }
{
    let mut given = words.iter();
    let Some(word) = given.next() else {
        return false;
    };
    if given.next().is_some() {
        return false;
    }
    word.as_str() == "--version"
}

/// The line that tells the product, its version, the method of its scheme of signatures, the kit that built it, and whether it was
/// proved.
pub fn version_text(alloc: Global, method: &str) -> Result<String, AllocError>
    ensures { IfOk result (λ text. string_bytes text ≡ version_line method.now) }
{
    format!(in alloc; "uptane_desk {VERSION}, {method}, kit {KIT}, {PROOF}\n")
}
