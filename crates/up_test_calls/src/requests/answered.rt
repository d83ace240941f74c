//! What is answered to an input, in bytes, and what comes of readers and writers that fail.
//!
//! `NUMBER: BYTES` tells how many requests were answered and what was written, `CAUSE CALLED ANSWERED: BYTES` a fault.
use crate::requests::responder::Empty;
use std::alloc::{AllocError, Global};
use up_http::fault::{Fault, ServeFault};
use up_http::served::Served;
use up_http::serving::serve;
use up_test_common::devices::{Reads, Shaky, Slow, Writes, bytes_of, numbers, text_of};

/// More than an input has.
const WHOLE: usize = 1_000_000;

/// What is answered to an input whole and a byte at a time, which has to be the same.
pub(crate) fn answered_anyhow(alloc: Global, given: &str) -> Result<String, AllocError> {
    let bytes = bytes_of(alloc, given)?;
    let whole = answered(alloc, bytes.as_slice(), pieces(WHOLE), whole_writes())?;
    let slowly = answered(alloc, bytes.as_slice(), pieces(1), whole_writes())?;
    if whole == slowly {
        Ok(whole)
    } else {
        format!(in alloc; "{whole}, but a byte at a time {slowly}")
    }
}

fn pieces(step: usize) -> Reads {
    Reads {
        first: 0,
        step,
        fails_at: 0,
    }
}

fn whole_writes() -> Writes {
    Writes {
        fails_at: 0,
        takes_none_at: 0,
    }
}

/// The row `STEP READ WRITE NONE INPUT`: bytes of a read, the read and the write that fail, and the write that takes nothing. How
/// many requests were handed on stands behind the fault.
pub(crate) fn answered_with_faults(alloc: Global, given: &str) -> Result<String, AllocError> {
    let ([step, read, write, none], input) = numbers::<4>(given);
    let reads = Reads {
        first: 0,
        step: step as usize,
        fails_at: read,
    };
    let writes = Writes {
        fails_at: write,
        takes_none_at: none,
    };
    let bytes = bytes_of(alloc, input)?;
    answered(alloc, bytes.as_slice(), reads, writes)
}

fn answered(
    alloc: Global,
    input: &[u8],
    reads: Reads,
    writes: Writes,
) -> Result<String, AllocError> {
    let mut asked = 0;
    let mut reader = Slow::new(input, reads);
    let mut writer = Shaky::new(alloc, writes);
    let ended = serve(alloc, &Empty, &mut asked, &mut reader, &mut writer);
    told(alloc, &ended, asked, writer.written())
}

fn told(
    alloc: Global,
    ended: &Result<Served, ServeFault>,
    asked: u32,
    written: &[u8],
) -> Result<String, AllocError> {
    let bytes = text_of(alloc, written)?;
    match ended {
        Ok(served) => format!(in alloc; "{} of {asked}: {bytes}", served.requests),
        Err(fault) => fault_told(alloc, fault, asked, bytes.as_str()),
    }
}

fn fault_told(
    alloc: Global,
    fault: &ServeFault,
    asked: u32,
    bytes: &str,
) -> Result<String, AllocError> {
    let cause = cause_name(fault.cause);
    format!(in alloc;
        "{cause} {} {} of {asked}: {bytes}",
        fault.called, fault.answered
    )
}

fn cause_name(cause: Fault) -> &'static str {
    match cause {
        Fault::Memory => "Memory",
        Fault::Read => "Read",
        Fault::Write => "Write",
    }
}
