//! Streams of HTTP requests: read, carried out at a desk, and answered.
ghost use Rattle.std.specs.Prelude.{◌⊎◌};
ghost use Rattle.up_lines.specs.Runs.{EndsRun};
ghost use Rattle.up_http.specs.Serving.{cause_of};
ghost use Rattle.up_service.specs.Streams.{RunsStream};

use crate::laws::streams_outlast_crashes;
use crate::refusals::Hears;
use crate::response::Responder;
use sqlite::Alter;
use std::alloc::Global;
use up_desk::desk::Desk;
use up_http::fault::ServeFault;
use up_http::served::Served;
use up_http::serving::serve;
use up_pieces::sink::Sink;
use up_pieces::source::Source;
use up_sign::scheme::Scheme;

/// Reads a stream of HTTP requests until it ends, carries out their commands at the desk, all at one moment in seconds since
/// 1970-01-01T00:00:00Z, and writes an answer to each as soon as it is whole.
///
/// The stream ends with its input, with a request that closes the connection, or with the hundredth. Of a reader whose bytes are
/// known at most 27,852,800 are read; nothing is tried twice. A fault tells how many requests were handed to the desk, whose
/// effects stand, and how many answers were written whole. `Read` comes after all requests that were whole before it, and
/// only where the reader failed; `Write` only where the writer failed, or took no byte; and `Memory` only where neither did.
///
/// However it ended, a crash behind it leaves what could be left before, or the state behind some request; and none before the
/// last that got the reply to a new manifest. So nothing that was answered is lost. `log` hears of each command that is refused.
pub fn serve_stream<K: Scheme, D: Alter, R: Source, W: Sink, L: Hears>(
    alloc: Global,
    log: &L,
    desk: &mut Desk<K, D>,
    at: u64,
    reader: &mut R,
    writer: &mut W,
) -> Result<Served, ServeFault>
    requires can_read { R.can_read reader.old }
    requires can_write { W.can_write writer.old }

    // What was answered of the bytes that came, what was written, and what stands of it.
    ensures runs { RunsStream (K.rules) D.Store at (R.remaining reader.old) (R.remaining reader.new)
        (record { state = desk.old; held = W.contents writer.old })
        (record { state = desk.new; held = W.contents writer.new }) result }

    // How it ended: nothing was tried twice, and what failed is told.
    ensures ends { EndsRun (λ fault. cause_of fault.cause) (R.can_read reader.new ⊎ R.has_ended reader.new)
        (R.has_failed reader.new) (R.can_read reader.new ⊎ R.has_ended reader.new)
        (W.has_failed writer.new) (W.can_write writer.new) result }
{
    streams_outlast_crashes::<K, D>();
    serve(alloc, &Responder { at, log }, desk, reader, writer)
}
