//! The laws of whole scripts and whole streams.
ghost use Rattle.std.specs.Prelude.{ℕ, List};
ghost use Rattle.up_http.specs.declared.asked.Next.{Next};
ghost use Rattle.up_service.specs.Runs.{ReopenedLast};
ghost use Rattle.up_service.specs.Scripts.{LinesLast};
ghost use Rattle.up_service.specs.Streams.{RequestsLast};

use sqlite::Alter;
use sqlite_disk::Disk;
use up_machine::laws::{refusals_change_nothing, repeats_change_nothing};
use up_sign::scheme::Scheme;

/// What a desk answered to the lines of a script stays. It is said of every run over lines: of a whole script, of its first
/// lines as far as they were answered, and of these and the next ones, of whose answers nothing or a part was written.
///
/// From each state that the tables showed before the run: each text is the answer in the state behind the lines before it, or tells
/// that memory or the database refused, and then that line changed nothing. A crash leaves what it could leave before, or what
/// one of the lines makes of the state behind those before it, or some of them that share a commit. Behind each `done`, and each
/// reply to a new manifest, it leaves the state behind that line, or what one of the lines that follow makes from there on.
pub fn scripts_outlast_crashes<K: Scheme, D: Alter>()
    ensures { LinesLast (K.rules) D.Store }
{
    refusals_change_nothing();
    repeats_change_nothing();
}

/// The same of the requests of a stream, at any moment.
pub fn streams_outlast_crashes<K: Scheme, D: Alter>()
    ensures { RequestsLast (K.rules) D.Store }
{
    refusals_change_nothing();
}

/// What an open finds behind a script, where the program stopped and the files are opened again as a crash left them: behind each
/// `done`, and each reply to a new manifest, the state behind that line, or what one of the lines that follow makes from there on.
pub fn reopened_scripts_outlast_crashes<D: Disk>()
    ensures { ReopenedLast (List ℕ) D.Disk }
{}

/// The same of the requests of a stream.
pub fn reopened_streams_outlast_crashes<D: Disk>()
    ensures { ReopenedLast Next D.Disk }
{}
