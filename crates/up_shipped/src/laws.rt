//! The laws of what ships. Each function is empty but for laws that it calls: its contract is a theorem.
ghost use Rattle.up_shipped.specs.Connections.{ConnectionsAreRuns, ReopenedAll};
ghost use Rattle.up_shipped.specs.Shipped.{ScriptsAreRuns, StreamsAreRuns};
ghost use Rattle.up_shipped.specs.Starts.{TakenTablesShow};

use sqlite::Alter;
use sqlite_disk::Disk;
use up_http::laws::conversations_keep_order;
use up_machine::laws::{
    kept_replies_stay, refusals_change_nothing, repeats_change_nothing, vehicles_stand_apart,
};
use up_main::laws::clients_outlast_crashes;
use up_rows::laws::rows_tell_the_state;
use up_service::laws::scripts_outlast_crashes;
use up_sign::scheme::Scheme;

/// Every script is a run of the plain machine, from the bytes that come to those that are written. The commands that its lines ask, in
/// their order, with the answers that are printed, are a list of which `IsRun` holds: nothing is done twice, a repeat gets the kept
/// reply, each vehicle stands by itself, neighbours may be exchanged, and what failed changed nothing. The tables show the state behind
/// it, and what was answered outlasts a crash. It is said of `run_script`'s contract, from each sound state that the tables showed,
/// over a disk that has returned what was written.
pub fn scripts_are_runs<K: Scheme, D: Alter>()
    ensures { ScriptsAreRuns (K.rules) D.Store }
{
    repeats_change_nothing();
    kept_replies_stay();
    vehicles_stand_apart();
}

/// The same of every stream of requests, by `serve_stream`'s contract.
pub fn streams_are_runs<K: Scheme, D: Alter>()
    ensures { StreamsAreRuns (K.rules) D.Store }
{
    repeats_change_nothing();
    kept_replies_stay();
    vehicles_stand_apart();
}

/// Many connections over one desk, and operators' scripts among them, are one run of the plain machine, however what happens on them
/// is interleaved and whatever is done together: the commands that are asked, in the order in which they were met, each at its
/// connection's moment, with these answers. Each connection has its own requests, in their order, and the answers to them, byte for
/// byte. The tables show the state behind them, and what was answered outlasts a crash.
pub fn connections_are_runs<K: Scheme, D: Alter>()
    ensures { ConnectionsAreRuns (K.rules) D.Store }
{
    repeats_change_nothing();
    kept_replies_stay();
    vehicles_stand_apart();
    refusals_change_nothing();
    conversations_keep_order();
    scripts_outlast_crashes::<K, D>();
    clients_outlast_crashes::<K, D>();
}

/// What an open finds behind the answers to many connections and operators, where the program stopped and the files are opened again
/// as a crash left them: behind each answered commit the state behind it, or what one of those that follow makes from there on.
pub fn reopened_connections_outlast_crashes<D: Disk>()
    ensures { ReopenedAll D.Disk }
{}

/// A desk over a database that `take_for` took shows each sound state that the tables showed before, by whichever version of the schema; and
/// where there were no tables, and the disk counted no fault, the one in which nothing is founded. So what is promised of scripts, streams
/// and clients from a state that the tables show holds from that one.
pub fn taken_tables_show<K: Scheme, D: Alter>()
    ensures { TakenTablesShow (K.rules) D.Store }
{
    rows_tell_the_state();
}
