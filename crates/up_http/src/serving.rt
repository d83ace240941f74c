//! A stream that is read, and the answers to its requests.
ghost use Rattle.std.specs.Prelude.{◌≡◌, ◌⊎◌, ◌≤◌, ◌<◌, ◌+◌, [], ◌∷◌, ℕ, List, IfErr, IsTrue, OnOk, false, true, length, take};
ghost use Rattle.std.specs.Io.KnownBytes.{Appends};
ghost use Rattle.up_http.specs.Requests.{asks_running, most_requests};
ghost use Rattle.up_lines.specs.Runs.{BlamesWriter, EndsRun};
ghost use Rattle.up_http.specs.Serving.{RanRequests, RunsRequests, calls, cause_of};
ghost use Rattle.up_http.specs.Steps.{AnswersNext, Completes, IsFresh, IsQuiet, IsReady, Moves, Stops, Takes, TakesStep, Unanswered, told};
ghost use Rattle.up_http.specs.Talks.{wants_of};
ghost use Rattle.up_http.specs.declared.conversation.Wants.TheVariants.{Answer};

use crate::asked::{Next, Step, What};
use crate::conversation::Conversation;
use crate::fault::{Fault, ServeFault};
use crate::progress::Progress;
use crate::respond::Respond;
use crate::served::Served;
use std::alloc::Global;
use up_pieces::sink::Sink;
use up_pieces::source::Source;
use up_pieces::{read_piece, write_whole};

/// The most bytes that are read: so many requests of a head and a body of the greatest sizes.
const MOST_BYTES: u64 = 27_852_800;

/// How many bytes are read at once.
const PIECE_BYTES: usize = 8_192;

/// Answers the request that a conversation gave, and writes the answer.
fn answer_next<S, A: Respond<S>, W: Sink>(
    alloc: Global,
    responder: &A,
    state: &mut S,
    writer: &mut W,
    talk: &mut Conversation,
    next: &Next,
) -> Result<(), Fault>
    requires asks { IsTrue (asks_running next.now.what) }
    requires can_write { W.can_write writer.old }
    requires waits { wants_of talk.old ≡ Answer }
    ensures fed { talk.new.fed ≡ talk.old.fed }
    ensures quiet { OnOk result (IsQuiet talk.new) }
    ensures ok { OnOk result ((text : List ℕ) × A.gives responder.now state.old next.now text state.new
        × Appends (W.contents writer.old) (W.contents writer.new) text) }
    ensures err { IfErr result
        (λ cause. Unanswered (A.gives responder.now) cause next.now
        (record { state = state.old; held = W.contents writer.old })
        (record { state = state.new; held = W.contents writer.new })) }
    ensures goes_on { OnOk result (W.can_write writer.new) }
    ensures blames { IfErr result
        (λ cause. BlamesWriter (cause_of cause) (W.has_failed writer.new) (W.can_write writer.new)) }
{
    let text = responder.respond(alloc, state, next)?;
    talk.answer(text);
    match write_whole(writer, talk.unsent()) {
        Ok(()) => {
            let bytes = talk.unsent().len();
            talk.wrote(bytes);
            Ok(())
        }
        Err(_) => Err(Fault::Write),
    }
}

/// One more request is handed on, if it is a command.
fn count_call(called: u32, next: &Next) -> u32
    requires { called < most_requests }
    ensures sum { result ≡ called + calls (next.now ∷ []) }
    ensures one { result ≤ called + 1 }
{
    match &next.what {
        What::Call(_) => called + 1,
        What::Fixed(_) => called,
    }
}

/// Answers a request that the conversation gave, and counts it.
fn answer_counted<S, A: Respond<S>, W: Sink>(
    alloc: Global,
    responder: &A,
    state: &mut S,
    writer: &mut W,
    progress: &mut Progress,
    next: Next,
) -> Result<(), Fault>
    requires asks { IsTrue (asks_running next.what) }
    requires calls_left { progress.old.called < progress.old.talk.fed.given }
    requires answers_left { progress.old.answered < progress.old.talk.fed.given }
    requires waits { wants_of progress.old.talk ≡ Answer }
    requires can_write { W.can_write writer.old }
    ensures { AnswersNext (A.gives responder.now) next
        progress.old (record { state = state.old; held = W.contents writer.old })
        progress.new (record { state = state.new; held = W.contents writer.new })
        (W.has_failed writer.new) (W.can_write writer.new) result }
{
    progress.called = count_call(progress.called, &next);
    let told = answer_next(alloc, responder, state, writer, &mut progress.talk, &next);
    // Dropped in one place: a proof goes through the request's drop at each way out.
    drop(next);
    told?;
    progress.answered += 1;
    Ok(())
}

/// Feeds the stream a piece, and answers the request that is whole then.
fn serve_piece<S, A: Respond<S>, W: Sink>(
    alloc: Global,
    responder: &A,
    state: &mut S,
    writer: &mut W,
    progress: &mut Progress,
    piece: &[u8],
) -> Result<usize, Fault>
    requires ready { IsReady progress.old }
    requires some { 0 < length piece.now }
    requires can_write { W.can_write writer.old }
    ensures { TakesStep
        (λ n old before new after. Moves n piece.now old new
        × Takes (A.gives responder.now) (take n piece.now) old before new after)
        (λ cause. Stops (A.gives responder.now) cause false piece.now)
        progress.old (record { state = state.old; held = W.contents writer.old })
        progress.new (record { state = state.new; held = W.contents writer.new })
        (W.has_failed writer.new) (W.can_write writer.new) result }
{
    let Step { taken, next } = match progress.talk.hear(piece) {
        Ok(step) => step,
        Err(_) => return Err(Fault::Memory),
    };
    match next {
        None => Ok(taken),
        Some(next) => {
            progress.over = next.last;
            answer_counted(alloc, responder, state, writer, progress, next)?;
            Ok(taken)
        }
    }
}

/// Answers what is left at the input's end, if anything is.
fn finish<S, A: Respond<S>, W: Sink>(
    alloc: Global,
    responder: &A,
    state: &mut S,
    writer: &mut W,
    progress: &mut Progress,
) -> Result<(), Fault>
    requires ready { IsReady progress.old }
    requires can_write { W.can_write writer.old }
    ensures { TakesStep (λ _. Completes (A.gives responder.now)) (λ cause. Stops (A.gives responder.now) cause true [])
        progress.old (record { state = state.old; held = W.contents writer.old })
        progress.new (record { state = state.new; held = W.contents writer.new })
        (W.has_failed writer.new) (W.can_write writer.new) result }
{
    match progress.talk.end() {
        None => {
            progress.over = true;
            Ok(())
        }
        Some(next) => {
            progress.over = true;
            answer_counted(alloc, responder, state, writer, progress, next)
        }
    }
}

/// Reads the stream and answers its requests, each as soon as it is whole, until it ends.
fn serve_reads<S, A: Respond<S>, R: Source, W: Sink>(
    alloc: Global,
    responder: &A,
    state: &mut S,
    reader: &mut R,
    writer: &mut W,
    progress: &mut Progress,
) -> Result<(), Fault>
    requires fresh { IsFresh progress.old }
    requires can_read { R.can_read reader.old }
    requires can_write { W.can_write writer.old }
    ensures ran { RanRequests (A.gives responder.now) (R.remaining reader.old) (R.remaining reader.new)
        (record { state = state.old; held = W.contents writer.old })
        (record { state = state.new; held = W.contents writer.new }) (told result progress.new) }
    ensures ends { EndsRun cause_of (R.can_read reader.new ⊎ R.has_ended reader.new)
        (R.has_failed reader.new) (R.can_read reader.new ⊎ R.has_ended reader.new)
        (W.has_failed writer.new) (W.can_write writer.new) result }
{
    let mut buffer = [0; PIECE_BYTES];
    let mut most = MOST_BYTES;
    let mut at = 0;
    let mut filled = 0;
    while !progress.over {
        if at < filled {
            let piece = &buffer[at..filled];
            let taken = serve_piece(alloc, responder, state, writer, progress, piece)?;
            at += taken;
        } else {
            match read_piece(reader, &mut buffer, most) {
                Ok(0) => return finish(alloc, responder, state, writer, progress),
                Ok(n) => {
                    most -= n as u64;
                    at = 0;
                    filled = n;
                }
                Err(_) => return Err(Fault::Read),
            }
        }
    }
    Ok(())
}

/// Reads a stream and answers its requests, each as soon as it is whole, until the stream ends.
///
/// Of a reader whose bytes are known at most 27,852,800 are read, and none behind what ends the stream or the run, but the piece
/// of at most 8,192 bytes in which that lay. Nothing is tried twice: after a read that failed or gave no byte the reader isn't
/// read, nor is the writer written after a write that failed or took none. A fault tells how many requests were handed on as
/// commands, whose effects stand, and how many answers were written whole. `Read` comes after all requests that were whole
/// before it, and only where the reader failed; `Write` only where the writer failed, or took no byte; and `Memory` only where
/// neither did, and a byte was read behind the requests that were answered.
pub fn serve<S, A: Respond<S>, R: Source, W: Sink>(
    alloc: Global,
    responder: &A,
    state: &mut S,
    reader: &mut R,
    writer: &mut W,
) -> Result<Served, ServeFault>
    requires can_read { R.can_read reader.old }
    requires can_write { W.can_write writer.old }
    ensures requests { RunsRequests (A.gives responder.now) (R.remaining reader.old) (R.remaining reader.new)
        (record { state = state.old; held = W.contents writer.old })
        (record { state = state.new; held = W.contents writer.new }) result }
    ensures ends { EndsRun (λ fault. cause_of fault.cause) (R.can_read reader.new ⊎ R.has_ended reader.new)
        (R.has_failed reader.new) (R.can_read reader.new ⊎ R.has_ended reader.new)
        (W.has_failed writer.new) (W.can_write writer.new) result }
{
    let mut progress = Progress {
        talk: Conversation::new(alloc),
        over: false,
        called: 0,
        answered: 0,
    };
    match serve_reads(alloc, responder, state, reader, writer, &mut progress) {
        Ok(()) => Ok(Served {
            requests: progress.answered,
        }),
        Err(cause) => Err(ServeFault {
            cause,
            called: progress.called,
            answered: progress.answered,
        }),
    }
}
