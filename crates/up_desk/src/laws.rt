//! The laws of commits, and of deliveries that come again.
ghost use Rattle.up_desk.specs.Laws.{NewRepliesCommit, DeliveriesActOnce, CrashesActOnce, LastCommitsStand};
ghost use Rattle.up_desk.specs.Laws.{ReopenedActsOnce, ReopenedOutlast};

use sqlite::Alter;
use sqlite_disk::Disk;
use up_machine::laws::{repeats_are_found, repeats_change_nothing};

/// The reply to a newly accepted manifest is a commit: the state changes with it.
pub fn new_replies_commit()
    ensures { NewRepliesCommit }
{}

/// A delivery that the plain machine accepts acts once when it comes again before another manifest or a replacement of its
/// vehicle, whether or not its call came through: the state then has exactly one entry for it, and the answer is that entry's
/// reply. So it does after a crash behind that call, however it ended.
pub fn deliveries_act_once<D: Alter>()
    ensures again { DeliveriesActOnce }
    ensures crash { CrashesActOnce D.Store }
{
    repeats_are_found();
    repeats_change_nothing();
}

/// So a delivery does where the program stopped, and the files are opened again as a crash left them.
pub fn reopened_deliveries_act_once<D: Disk>()
    ensures { ReopenedActsOnce D.Disk }
{
    repeats_are_found();
    repeats_change_nothing();
}

/// Of a whole list: where behind a commit that was answered no command changes the state, a crash leaves the state after the
/// whole list alone.
pub fn last_commits_stand<D: Alter>()
    ensures { LastCommitsStand D.Store }
{}

/// Of a whole list, where the program stopped and the files are opened again as a crash left them: behind each commit that was
/// answered the tables show the state behind it, or the one after some of the commands that follow.
pub fn reopened_runs_outlast_crashes<D: Disk>()
    ensures { ReopenedOutlast D.Disk }
{}
