//! Digests of files.
ghost use Rattle.std.specs.Prelude.{◌≡◌, IfErr};

use std::fs;
use up_program::digests::Digests;
use up_program::failure::{Failure, told};
use up_program::line::write_line;
use up_service::digest::digest_stream;

/// Prints the length, the SHA-256 and the SHA-512 of the file. A line that can't be written is ignored.
pub(crate) fn digest(rt: &HostRuntime, file: &str) -> Result<(), Failure>
    ensures { IfErr result (λ failure. failure ≡ Failure.Unread) }
{
    let Ok(mut opened) = fs::open(rt, file) else {
        return told(&mut rt.stderr(), Err(Failure::Unread));
    };
    match Digests::of(digest_stream(&mut opened)) {
        Ok(digests) => {
            write_line(&mut rt.stdout(), &digests.line());
            Ok(())
        }
        Err(failure) => told(&mut rt.stderr(), Err(failure)),
    }
}
