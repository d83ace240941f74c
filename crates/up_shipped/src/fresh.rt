//! Lists of commands, scripts and streams over fresh tables.
ghost use Rattle.std.specs.Prelude.{◌≡◌, false, IfSome, IsTrue};
ghost use Rattle.std.specs.List.{AllByRecursion};
ghost use Rattle.sqlite.specs.Held.{state};
ghost use Rattle.sqlite.specs.State.{HasCleanDisk};
ghost use Rattle.up_machine.specs.Commands.{opens_running};
ghost use Rattle.up_shipped.specs.FromNothing.{IsRunFromNothing, IsScriptFromNothing, IsStreamFromNothing};

use crate::laws::{scripts_are_runs, streams_are_runs};
use sqlite::{Alter, Connection};
use std::alloc::Global;
use up_desk::desk::Desk;
use up_http::fault::ServeFault;
use up_http::served::Served;
use up_lines::fault::ScriptFault;
use up_machine::answer::Answer;
use up_machine::command::Command;
use up_machine::laws::states_stay_sound;
use up_pieces::sink::Sink;
use up_pieces::source::Source;
use up_rows::laws::rows_tell_the_state;
use up_service::refusals::Hears;
use up_service::script::run_script;
use up_service::stream::serve_stream;
use up_sign::scheme::Scheme;
use up_store::store::Store;

/// Makes the tables in a database that has none, and answers commands over them, one after another. Where the disk has returned what was
/// written, the answers are those of a run of the plain machine from nothing: nothing is done twice, a repeat gets the kept reply, each
/// vehicle stands by itself, neighbours may be exchanged, and what failed changed nothing. `None` where no tables can be made, or there is
/// no room for the answers; else the connection comes back with them.
pub fn run_fresh<K: Scheme, D: Alter + Drop>(
    alloc: Global,
    scheme: K,
    conn: Connection<D>,
    commands: &[(u64, Command)],
) -> Option<(Vec<Answer>, Connection<D>)>
    requires mode { (state D.Store conn).in_transaction ≡ false }
    requires running { AllByRecursion (λ c. IsTrue (opens_running c.1)) commands.now }
    ensures { IfSome result (λ r. HasCleanDisk (state D.Store r.1) → IsRunFromNothing (K.rules scheme) commands.now r.0.items) }
{
    states_stay_sound();
    rows_tell_the_state();
    let Ok(store) = Store::create(conn) else {
        return None;
    };
    let mut desk = Desk::new(scheme, store);
    let mut answers = Vec::new(alloc);
    let ran = desk.run(alloc, commands, &mut answers).is_ok();
    let conn = desk.release().release();
    if ran { Some((answers, conn)) } else { None }
}

/// Makes the tables in a database that has none, and carries out a script over them. Where the disk has returned what was written, the commands
/// that the bytes ask, with the answers that were written, are a run of the plain machine from nothing; of a script that ended early its first
/// lines. `None` where no tables can be made; else how the script ended, and the connection.
pub fn script_fresh<K: Scheme, D: Alter + Drop, R: Source, W: Sink>(
    alloc: Global,
    scheme: K,
    conn: Connection<D>,
    reader: &mut R,
    writer: &mut W,
) -> Option<(Result<u32, ScriptFault>, Connection<D>)>
    requires mode { (state D.Store conn).in_transaction ≡ false }
    requires can_read { R.can_read reader.old }
    requires can_write { W.can_write writer.old }
    ensures { IfSome result (λ r. HasCleanDisk (state D.Store r.1) → IsScriptFromNothing (K.rules scheme)
        (R.remaining reader.old) (R.remaining reader.new) (W.contents writer.old) (W.contents writer.new) r.0) }
{
    states_stay_sound();
    rows_tell_the_state();
    scripts_are_runs::<K, D>();
    let Ok(store) = Store::create(conn) else {
        return None;
    };
    let mut desk = Desk::new(scheme, store);
    let ended = run_script(alloc, &mut desk, reader, writer);
    Some((ended, desk.release().release()))
}

/// Makes the tables in a database that has none, and answers a stream of HTTP requests over them, all at one moment in seconds since
/// 1970-01-01T00:00:00Z. Where the disk has returned what was written, the commands that the requests ask, with the answers that were
/// written, are a run of the plain machine from nothing; of a stream that ended early its first requests. `None` where no tables can be
/// made; else how the stream ended, and the connection.
pub fn stream_fresh<K: Scheme, D: Alter + Drop, R: Source, W: Sink, L: Hears>(
    alloc: Global,
    log: &L,
    scheme: K,
    conn: Connection<D>,
    at: u64,
    reader: &mut R,
    writer: &mut W,
) -> Option<(Result<Served, ServeFault>, Connection<D>)>
    requires mode { (state D.Store conn).in_transaction ≡ false }
    requires can_read { R.can_read reader.old }
    requires can_write { W.can_write writer.old }
    ensures { IfSome result (λ r. HasCleanDisk (state D.Store r.1) → IsStreamFromNothing (K.rules scheme) at
        (R.remaining reader.old) (R.remaining reader.new) (W.contents writer.old) (W.contents writer.new) r.0) }
{
    states_stay_sound();
    rows_tell_the_state();
    streams_are_runs::<K, D>();
    let Ok(store) = Store::create(conn) else {
        return None;
    };
    let mut desk = Desk::new(scheme, store);
    let served = serve_stream(alloc, log, &mut desk, at, reader, writer);
    Some((served, desk.release().release()))
}
