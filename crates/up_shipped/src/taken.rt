//! A script and a stream over a database that is taken, or made.
ghost use Rattle.std.specs.Prelude.{◌≡◌, false, IfSome};
ghost use Rattle.sqlite.specs.Held.{state};
ghost use Rattle.up_shipped.specs.Starts.{StartsScript, StartsStream};

use crate::laws::{scripts_are_runs, streams_are_runs, taken_tables_show};
use sqlite::{Alter, Connection};
use std::alloc::Global;
use up_desk::desk::Desk;
use up_file::adopting::take_for;
use up_http::fault::ServeFault;
use up_http::served::Served;
use up_lines::fault::ScriptFault;
use up_pieces::sink::Sink;
use up_pieces::source::Source;
use up_service::refusals::Hears;
use up_service::script::run_script;
use up_service::stream::serve_stream;
use up_sign::scheme::Scheme;

/// Takes a database for the scheme, as the program does at its start, and carries out a script over it: a run of the plain machine from
/// each sound state that the tables showed before, by whichever version of the schema, or from nothing where there were no tables and the
/// disk counted no fault. It goes as far as the clauses of `take_for`: from the connection on, and not from the bytes of a file. `None` where
/// the database isn't taken; else how the script ended, and the desk.
pub fn script_taken<K: Scheme, D: Alter + Drop, R: Source, W: Sink>(
    alloc: Global,
    scheme: K,
    conn: Connection<D>,
    reader: &mut R,
    writer: &mut W,
) -> Option<(Result<u32, ScriptFault>, Desk<K, D>)>
    requires mode { (state D.Store conn).in_transaction ≡ false }
    requires can_read { R.can_read reader.old }
    requires can_write { W.can_write writer.old }
    ensures { IfSome result (λ r. StartsScript (K.rules) D.Store scheme conn
        (R.remaining reader.old) (R.remaining reader.new) (W.contents writer.old) (W.contents writer.new) r.0 r.1) }
{
    scripts_are_runs::<K, D>();
    taken_tables_show::<K, D>();
    let Ok(store) = take_for(alloc, scheme.method(), conn) else {
        return None;
    };
    let mut desk = Desk::new(scheme, store);
    let ended = run_script(alloc, &mut desk, reader, writer);
    Some((ended, desk))
}

/// The same of a stream of HTTP requests, all at one moment in seconds since 1970-01-01T00:00:00Z. `None` where the database isn't taken;
/// else how the stream ended, and the desk.
pub fn stream_taken<K: Scheme, D: Alter + Drop, R: Source, W: Sink, L: Hears>(
    alloc: Global,
    log: &L,
    scheme: K,
    conn: Connection<D>,
    at: u64,
    reader: &mut R,
    writer: &mut W,
) -> Option<(Result<Served, ServeFault>, Desk<K, D>)>
    requires mode { (state D.Store conn).in_transaction ≡ false }
    requires can_read { R.can_read reader.old }
    requires can_write { W.can_write writer.old }
    ensures { IfSome result (λ r. StartsStream (K.rules) D.Store at scheme conn
        (R.remaining reader.old) (R.remaining reader.new) (W.contents writer.old) (W.contents writer.new) r.0 r.1) }
{
    streams_are_runs::<K, D>();
    taken_tables_show::<K, D>();
    let Ok(tables) = take_for(alloc, scheme.method(), conn) else {
        return None;
    };
    let mut desk = Desk::new(scheme, tables);
    let served = serve_stream(alloc, log, &mut desk, at, reader, writer);
    Some((served, desk))
}
