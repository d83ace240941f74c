//! Scripts: lines that are read, carried out at a desk, and answered.
ghost use Rattle.std.specs.Prelude.{◌⊎◌};
ghost use Rattle.up_lines.specs.Runs.{EndsRun};
ghost use Rattle.up_service.specs.Scripts.{RunsScript};

use crate::laws::scripts_outlast_crashes;
use crate::line_answer::Scripter;
use sqlite::Alter;
use std::alloc::Global;
use up_desk::desk::Desk;
use up_lines::fault::{ScriptCause, ScriptFault};
use up_lines::run;
use up_machine::laws::vehicles_stand_apart;
use up_pieces::sink::Sink;
use up_pieces::source::Source;
use up_sign::scheme::Scheme;

/// Reads a script to its end, carries out its lines at the desk one after another, and writes a line for each that isn't empty.
///
/// The number is that of the lines answered. A line has at most 2,097,152 bytes, its newline not counted, and there are at most
/// 100,000; past that comes `TooLong`. Of a reader whose bytes are known at most 209,715,300,001 are read; nothing is tried
/// twice. A fault tells how many answers were written whole; what was answered before it stays done. `Read` is told only where
/// the reader failed, `Write` where the writer failed or took none, `Memory` where neither did, and never for a limit: it is told
/// of a line that was carried out, or before the first, where no room for lines could be made.
///
/// However it ended, a crash behind it leaves what could be left before, or the state behind some line; and none before the last
/// line that was answered `done`, or got the reply to a new manifest. So nothing that was answered is lost.
pub fn run_script<K: Scheme, D: Alter, R: Source, W: Sink>(
    alloc: Global,
    desk: &mut Desk<K, D>,
    reader: &mut R,
    writer: &mut W,
) -> Result<u32, ScriptFault>
    requires can_read { R.can_read reader.old }
    requires can_write { W.can_write writer.old }

    // What was answered of the bytes that came, what was written, and what stands of it.
    ensures runs { RunsScript (K.rules) D.Store (R.remaining reader.old) (R.remaining reader.new)
        (record { state = desk.old; held = W.contents writer.old })
        (record { state = desk.new; held = W.contents writer.new }) result }

    // How it ended: nothing was tried twice, and what failed is told.
    ensures ends { EndsRun (λ fault. fault.cause) (R.has_ended reader.new)
        (R.has_failed reader.new) (R.can_read reader.new ⊎ R.has_ended reader.new)
        (W.has_failed writer.new) (W.can_write writer.new) result }
{
    vehicles_stand_apart();
    scripts_outlast_crashes::<K, D>();
    run(alloc, &Scripter, desk, reader, writer)
}
