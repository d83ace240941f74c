//! Scripts on standard input.
ghost use Rattle.std.specs.Prelude.{◌≡◌, ◌⊎◌, IfErr, OnOk};
ghost use Rattle.up_main.specs.Ends.{IsStopped};
ghost use Rattle.up_lines.specs.Runs.{Blames};

use sqlite::Alter;
use std::alloc::Global;
use up_desk::desk::Desk;
use up_pieces::sink::Sink;
use up_pieces::source::Source;
use up_program::failure::{Failure, ended, told};
use up_service::script::run_script;
use up_sign::scheme::Scheme;

/// Carries out the script on standard input, and prints its answers.
pub(crate) fn answer_lines<K: Scheme, D: Alter>(
    rt: &HostRuntime,
    desk: &mut Desk<K, D>,
) -> Result<(), Failure> {
    told(
        &mut rt.stderr(),
        answer_script(rt.alloc(), desk, &mut rt.stdin(), &mut rt.stdout()),
    )
}

/// Carries out a script, and writes its answers. It ends well only where the script was read to its end and each answer was
/// written; else what stopped it is told of the part that failed.
fn answer_script<K: Scheme, D: Alter, R: Source, W: Sink>(
    alloc: Global,
    desk: &mut Desk<K, D>,
    script: &mut R,
    answers: &mut W,
) -> Result<(), Failure>
    requires can_read { R.can_read script.old }
    requires can_write { W.can_write answers.old }
    ensures read { OnOk result (R.has_ended script.new) }
    ensures written { OnOk result (W.can_write answers.new) }
    ensures stopped { IfErr result (λ failure. IsStopped failure (λ cause.
        Blames cause (R.has_failed script.new) (R.can_read script.new ⊎ R.has_ended script.new)
        (W.has_failed answers.new) (W.can_write answers.new))) }
{
    ended(run_script(alloc, desk, script, answers))
}
