//! The law of clients and operators that are served at once.
ghost use Rattle.up_main.specs.Alike.{ScriptsAndStreamsAreSteps};
ghost use Rattle.up_main.specs.Clients.{ClientsLast};

use sqlite::Alter;
use up_machine::laws::{refusals_change_nothing, repeats_change_nothing};
use up_service::laws::scripts_outlast_crashes;
use up_sign::scheme::Scheme;

/// What a desk answered to clients and operators stays, however many are served at once. It is said of all that was done, one after
/// another: requests that were answered by themselves, groups of commands, and lines of scripts, perhaps in groups too.
///
/// From each state that the tables showed before: each text is the answer in the state behind what was done before it, or tells
/// that memory or the database refused, and then it changed nothing. A crash leaves what it could leave before, or what one request
/// makes of the state behind what was done before it, or some commands of one group, or some lines of one piece, which may share a
/// commit. Behind each commit that was answered it leaves the state behind that, or what follows makes from there on.
pub fn clients_outlast_crashes<K: Scheme, D: Alter>()
    ensures { ClientsLast (K.rules) D.Store }
{
    refusals_change_nothing();
    repeats_change_nothing();
    scripts_outlast_crashes::<K, D>();
}

/// Scripts and streams are such lists too. Lines of a script that `run_script` answers are one step, each request that `serve_stream`
/// answers is one, and what `clients_outlast_crashes` says of these steps gives what both promise: that each text is due, what a
/// crash leaves, and that what was answered stays.
pub fn scripts_and_streams_are_steps<K: Scheme, D: Alter>()
    ensures { ScriptsAndStreamsAreSteps (K.rules) D.Store }
{}
