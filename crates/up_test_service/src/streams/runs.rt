//! Streams and scripts at a desk, whose readers and writers may fail.
//!
//! `NUMBER: BYTES` tells how many requests or lines were answered and what was written, and `CAUSE CALLED ANSWERED: BYTES`, or
//! `CAUSE LINES: BYTES`, a fault.
use crate::streams::desks::AT;
use sqlite::Alter;
use std::alloc::{AllocError, Global};
use up_desk::desk::Desk;
use up_service::refusals::Deaf;
use up_service::script::run_script;
use up_service::stream::serve_stream;
use up_service::{Fault, ScriptCause, ScriptFault, ServeFault};
use up_sign::hmac_sha256::HmacSha256;
use up_test_common::devices::{Reads, Shaky, Slow, Writes, text_of};

/// What a stream of requests is answered.
pub(crate) fn streamed<D: Alter>(
    alloc: Global,
    desk: &mut Desk<HmacSha256, D>,
    input: &[u8],
    reads: Reads,
    writes: Writes,
) -> Result<String, AllocError> {
    let mut reader = Slow::new(input, reads);
    let mut writer = Shaky::new(alloc, writes);
    match serve_stream(alloc, &Deaf, desk, AT, &mut reader, &mut writer) {
        Ok(served) => number_told(alloc, served.requests, writer.written()),
        Err(fault) => fault_told(alloc, fault, writer.written()),
    }
}

/// How many requests or lines were answered, and what was written.
fn number_told(alloc: Global, number: u32, written: &[u8]) -> Result<String, AllocError> {
    let bytes = text_of(alloc, written)?;
    format!(in alloc; "{number}: {bytes}")
}

fn fault_told(alloc: Global, fault: ServeFault, written: &[u8]) -> Result<String, AllocError> {
    let bytes = text_of(alloc, written)?;
    let cause = cause_name(fault.cause);
    format!(in alloc; "{cause} {} {}: {bytes}", fault.called, fault.answered)
}

fn cause_name(cause: Fault) -> &'static str {
    match cause {
        Fault::Memory => "Memory",
        Fault::Read => "Read",
        Fault::Write => "Write",
    }
}

/// What the lines of a script are answered.
pub(crate) fn scripted<D: Alter>(
    alloc: Global,
    desk: &mut Desk<HmacSha256, D>,
    script: &[u8],
    reads: Reads,
    writes: Writes,
) -> Result<String, AllocError> {
    let mut reader = Slow::new(script, reads);
    let mut writer = Shaky::new(alloc, writes);
    match run_script(alloc, desk, &mut reader, &mut writer) {
        Ok(lines) => number_told(alloc, lines, writer.written()),
        Err(fault) => script_fault_told(alloc, fault, writer.written()),
    }
}

fn script_fault_told(
    alloc: Global,
    fault: ScriptFault,
    written: &[u8],
) -> Result<String, AllocError> {
    let bytes = text_of(alloc, written)?;
    let cause = script_cause_name(fault.cause);
    format!(in alloc; "{cause} {}: {bytes}", fault.lines)
}

fn script_cause_name(cause: ScriptCause) -> &'static str {
    match cause {
        ScriptCause::Memory => "Memory",
        ScriptCause::Read => "Read",
        ScriptCause::Write => "Write",
        ScriptCause::TooLong => "TooLong",
    }
}
