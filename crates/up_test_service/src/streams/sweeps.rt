//! Each read and each write fails in turn.
//!
//! What is told is `reads` and then `writes`, each with a fault for the first call that fails, the second, and so on until none is
//! left that could: `CAUSE CALLED ANSWERED SIZE`, of a script `CAUSE LINES SIZE`, the last being the length of what was written, as
//! rows spell it, which has to be the first of what is written where nothing fails. Then the same is sent once more to the same
//! desk. Requests have to be answered as where nothing failed. Of a script, `OTHER again` tells how many lines are answered
//! otherwise, since they stood.
use crate::streams::desks::{Medium, carry_out, in_files, in_memory};
use crate::streams::runs::{scripted, streamed};
use sqlite::Alter;
use std::alloc::{AllocError, Global};
use up_desk::desk::Desk;
use up_sign::hmac_sha256::HmacSha256;
use up_test_common::devices::{Reads, Writes, bytes_of, numbers};

/// More calls than any run makes.
const MOST_CALLS: u32 = 1_000;

/// What a desk is sent: a stream of requests, or the lines of a script.
#[derive(Clone, Copy, Debug)]
enum Kind {
    Requests,
    Lines,
}

/// What a desk of its own carries out before, and what it is sent then, in pieces of so many bytes.
#[derive(Clone, Copy)]
struct Sweep<'a> {
    kind: Kind,
    medium: Medium,
    script: &'a str,
    input: &'a [u8],
    step: usize,
}

/// The call that fails, counted from 1; 0 for none.
#[derive(Clone, Copy, Debug)]
struct Failing {
    read: u32,
    write: u32,
}

/// No call fails.
const NOTHING: Failing = Failing { read: 0, write: 0 };

/// What comes of a stream of requests, `STEP INPUT`.
pub(crate) fn swept(
    alloc: Global,
    medium: Medium,
    script: &str,
    given: &str,
) -> Result<String, AllocError> {
    told(alloc, Kind::Requests, medium, script, given)
}

/// What comes of the lines of a script, `STEP SCRIPT`.
pub(crate) fn lines_swept(
    alloc: Global,
    medium: Medium,
    script: &str,
    given: &str,
) -> Result<String, AllocError> {
    told(alloc, Kind::Lines, medium, script, given)
}

fn told(
    alloc: Global,
    kind: Kind,
    medium: Medium,
    script: &str,
    given: &str,
) -> Result<String, AllocError> {
    let ([step], input) = numbers::<1>(given);
    let bytes = bytes_of(alloc, input)?;
    let sweep = Sweep {
        kind,
        medium,
        script,
        input: bytes.as_slice(),
        step: step as usize,
    };
    told_of(alloc, sweep)
}

fn told_of(alloc: Global, sweep: Sweep) -> Result<String, AllocError> {
    let whole = runs_told(alloc, sweep, NOTHING)?;
    let mut out = "reads:".to_string(alloc)?;
    for read in 1..MOST_CALLS {
        let failing = Failing { read, write: 0 };
        if !push_fault_of(alloc, &mut out, sweep, failing, whole.as_str())? {
            break;
        }
    }
    push_writes(alloc, &mut out, sweep, whole.as_str())?;
    Ok(out)
}

fn push_writes(
    alloc: Global,
    out: &mut String,
    sweep: Sweep,
    whole: &str,
) -> Result<(), AllocError> {
    out.push_str(" writes:")?;
    for write in 1..MOST_CALLS {
        let failing = Failing { read: 0, write };
        if !push_fault_of(alloc, out, sweep, failing, whole)? {
            return Ok(());
        }
    }
    Ok(())
}

/// Tells the fault of a run; whether there was any.
fn push_fault_of(
    alloc: Global,
    out: &mut String,
    sweep: Sweep,
    failing: Failing,
    whole: &str,
) -> Result<bool, AllocError> {
    let runs = runs_told(alloc, sweep, failing)?;
    let (first, again) = halves(runs.as_str(), "\n");
    let (ended, written) = halves(first, ": ");
    if !ended.contains(' ') {
        return Ok(false);
    }
    push_run(alloc, out, ended, written, halves(whole, "\n").0)?;
    push_again(alloc, out, sweep.kind, again, halves(whole, "\n").0)?;
    Ok(true)
}

/// The text before the first mark and the text behind it.
fn halves<'a>(text: &'a str, mark: &str) -> (&'a str, &'a str) {
    text.split_once(mark).unwrap_or((text, ""))
}

/// Tells how a run ended and the length of what was written, and says so where it is not the first of what is written without a
/// fault.
fn push_run(
    alloc: Global,
    out: &mut String,
    ended: &str,
    written: &str,
    whole: &str,
) -> Result<(), AllocError> {
    let text = format!(in alloc; " {ended} {}", written.len())?;
    out.push_str(text.as_str())?;
    if !halves(whole, ": ").1.starts_with(written) {
        out.push_str(" other bytes")?;
    }
    Ok(())
}

/// Tells what came of the same once more.
fn push_again(
    alloc: Global,
    out: &mut String,
    kind: Kind,
    again: &str,
    whole: &str,
) -> Result<(), AllocError> {
    match kind {
        Kind::Requests if again == whole => out.push(','),
        Kind::Requests => out.push_str(" other answers,"),
        Kind::Lines => {
            let text = format!(in alloc; " {} again,", other_lines(again, whole))?;
            out.push_str(text.as_str())
        }
    }
}

/// How many lines are others in two texts.
fn other_lines(one: &str, another: &str) -> u32 {
    let mut others: u32 = 0;
    for (a, b) in one.split("\\n").zip(another.split("\\n")) {
        if a != b {
            others = others.saturating_add(1);
        }
    }
    others
}

/// What comes of a run with a call that fails, and of the same once more, a line for each, at a desk of its own.
fn runs_told(alloc: Global, sweep: Sweep, failing: Failing) -> Result<String, AllocError> {
    match sweep.medium {
        Medium::Memory => runs_over(alloc, in_memory(alloc)?, sweep, failing),
        Medium::Files => runs_over(alloc, in_files(alloc)?, sweep, failing),
    }
}

fn runs_over<D: Alter + Drop>(
    alloc: Global,
    mut desk: Desk<HmacSha256, D>,
    sweep: Sweep,
    failing: Failing,
) -> Result<String, AllocError> {
    let runs = runs_at(alloc, &mut desk, sweep, failing);
    drop(desk);
    runs
}

fn runs_at<D: Alter>(
    alloc: Global,
    desk: &mut Desk<HmacSha256, D>,
    sweep: Sweep,
    failing: Failing,
) -> Result<String, AllocError> {
    carry_out(alloc, desk, sweep.script)?;
    let first = run_told(alloc, desk, sweep, failing)?;
    let again = run_told(alloc, desk, sweep, NOTHING)?;
    format!(in alloc; "{first}\n{again}")
}

fn run_told<D: Alter>(
    alloc: Global,
    desk: &mut Desk<HmacSha256, D>,
    sweep: Sweep,
    failing: Failing,
) -> Result<String, AllocError> {
    let reads = Reads {
        first: 0,
        step: sweep.step,
        fails_at: failing.read,
    };
    let writes = Writes {
        fails_at: failing.write,
        takes_none_at: 0,
    };
    match sweep.kind {
        Kind::Requests => streamed(alloc, desk, sweep.input, reads, writes),
        Kind::Lines => scripted(alloc, desk, sweep.input, reads, writes),
    }
}
