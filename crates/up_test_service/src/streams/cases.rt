//! Rows of a section, at its desk.
//!
//! `do LINE` carries out the line of a script, and says what it printed. The rest sends requests, in which `|` stands for the end
//! of a line: `whole INPUT` in pieces of 1,000 bytes, `slow INPUT` a byte at a time, `cut INPUT` in two pieces cut at every byte,
//! which has to be answered the same each time, and `fails STEP READ WRITE NONE INPUT` in pieces of so many bytes, where that read
//! and that write fail and that write takes nothing. `lines STEP READ WRITE NONE SCRIPT` sends the lines of a script so. `sweep
//! STEP INPUT` and `lines_sweep STEP SCRIPT` fail each read and each write in turn, each time at a desk of its own that carried out
//! the section's lines `do`.
use crate::streams::desks::{Medium, in_files, in_memory};
use crate::streams::runs::{scripted, streamed};
use crate::streams::sweeps::{lines_swept, swept};
use sqlite::Alter;
use std::alloc::{AllocError, Global};
use up_desk::desk::Desk;
use up_sign::hmac_sha256::HmacSha256;
use up_test_common::calls::Calls;
use up_test_common::devices::{Reads, Writes, bytes_of, numbers};
use up_test_common::sections::told;

/// A section's desk, where its tables are kept, and the lines that it carried out.
#[derive(Drop)]
struct AtDesk<D: Alter> {
    desk: Desk<HmacSha256, D>,
    medium: Medium,
    script: String,
}

impl<D: Alter> Calls for AtDesk<D> {
    fn answer(&mut self, alloc: Global, _: &str, given: &str) -> Result<String, AllocError> {
        let (word, rest) = given.split_once(' ').unwrap_or((given, ""));
        match word {
            "do" => carried_out(alloc, &mut self.desk, &mut self.script, rest),
            "sweep" => swept(alloc, self.medium, self.script.as_str(), rest),
            "lines_sweep" => lines_swept(alloc, self.medium, self.script.as_str(), rest),
            _ => sent(alloc, &mut self.desk, word, rest),
        }
    }

    fn is_wanted(&self, had: &str, wanted: &str) -> bool {
        had == wanted
    }
}

/// What is told of a section, at a desk of its own.
pub(crate) fn told_over(
    alloc: Global,
    medium: Medium,
    section: &str,
) -> Result<String, AllocError> {
    match medium {
        Medium::Memory => told_at(alloc, in_memory(alloc)?, medium, section),
        Medium::Files => told_at(alloc, in_files(alloc)?, medium, section),
    }
}

fn told_at<D: Alter + Drop>(
    alloc: Global,
    desk: Desk<HmacSha256, D>,
    medium: Medium,
    section: &str,
) -> Result<String, AllocError> {
    let script = String::new(alloc);
    let mut at = AtDesk {
        desk,
        medium,
        script,
    };
    told(alloc, &mut at, section)
}

fn carried_out<D: Alter>(
    alloc: Global,
    desk: &mut Desk<HmacSha256, D>,
    script: &mut String,
    line: &str,
) -> Result<String, AllocError> {
    script.push_str(line)?;
    script.push('\n')?;
    scripted(alloc, desk, line.as_bytes(), pieces(1_000), whole_writes())
}

fn sent<D: Alter>(
    alloc: Global,
    desk: &mut Desk<HmacSha256, D>,
    word: &str,
    rest: &str,
) -> Result<String, AllocError> {
    match word {
        "whole" => in_pieces(alloc, desk, rest, 1_000),
        "slow" => in_pieces(alloc, desk, rest, 1),
        "cut" => cut_anywhere(alloc, desk, rest),
        "fails" => with_faults(alloc, desk, rest),
        "lines" => lines_with_faults(alloc, desk, rest),
        _ => "no such row".to_string(alloc),
    }
}

fn pieces(step: usize) -> Reads {
    Reads {
        first: 0,
        step,
        fails_at: 0,
    }
}

fn whole_writes() -> Writes {
    Writes {
        fails_at: 0,
        takes_none_at: 0,
    }
}

fn in_pieces<D: Alter>(
    alloc: Global,
    desk: &mut Desk<HmacSha256, D>,
    given: &str,
    step: usize,
) -> Result<String, AllocError> {
    let bytes = bytes_of(alloc, given)?;
    streamed(alloc, desk, bytes.as_slice(), pieces(step), whole_writes())
}

fn cut_anywhere<D: Alter>(
    alloc: Global,
    desk: &mut Desk<HmacSha256, D>,
    given: &str,
) -> Result<String, AllocError> {
    let bytes = bytes_of(alloc, given)?;
    let mut told = streamed(alloc, desk, bytes.as_slice(), pieces(1_000), whole_writes())?;
    for cut in 1..bytes.len() {
        push_if_another(alloc, desk, &mut told, bytes.as_slice(), cut)?;
    }
    Ok(told)
}

/// Says so where something else is answered at this cut.
fn push_if_another<D: Alter>(
    alloc: Global,
    desk: &mut Desk<HmacSha256, D>,
    told: &mut String,
    input: &[u8],
    cut: usize,
) -> Result<(), AllocError> {
    let reads = Reads {
        first: cut,
        step: 1_000,
        fails_at: 0,
    };
    let here = streamed(alloc, desk, input, reads, whole_writes())?;
    if here.as_str() != told.as_str() {
        let line = format!(in alloc; ", but cut at {cut} {here}")?;
        told.push_str(line.as_str())?;
    }
    Ok(())
}

/// The pieces and the faults of a row, and its input.
fn faults_of(given: &str) -> (Reads, Writes, &str) {
    let ([step, read, write, none], input) = numbers::<4>(given);
    let reads = Reads {
        first: 0,
        step: step as usize,
        fails_at: read,
    };
    let writes = Writes {
        fails_at: write,
        takes_none_at: none,
    };
    (reads, writes, input)
}

fn with_faults<D: Alter>(
    alloc: Global,
    desk: &mut Desk<HmacSha256, D>,
    given: &str,
) -> Result<String, AllocError> {
    let (reads, writes, input) = faults_of(given);
    let bytes = bytes_of(alloc, input)?;
    streamed(alloc, desk, bytes.as_slice(), reads, writes)
}

fn lines_with_faults<D: Alter>(
    alloc: Global,
    desk: &mut Desk<HmacSha256, D>,
    given: &str,
) -> Result<String, AllocError> {
    let (reads, writes, script) = faults_of(given);
    let bytes = bytes_of(alloc, script)?;
    scripted(alloc, desk, bytes.as_slice(), reads, writes)
}
