//! Words of the command line and digests, by cases.
//!
//! `words` are given with `|` between, and answered as the words of their job; `digests` and `digests of a reader that fails` are
//! given bytes.
use std::alloc::{AllocError, Global};
use up_service::digest::{DigestFault, digest_stream};
use up_service::job::Job;
use up_service::words::job;
use up_test_common::calls::Calls;
use up_test_common::devices::{Reads, Slow};

/// Calls that keep nothing.
#[derive(Clone, Copy, Debug)]
pub(crate) struct CommandLine;

impl Calls for CommandLine {
    fn answer(&mut self, alloc: Global, call: &str, given: &str) -> Result<String, AllocError> {
        match call {
            "words" => shown(alloc, job(words_of(alloc, given)?)),
            "digests" => digested(alloc, given, 0),
            "digests of a reader that fails" => digested(alloc, given, 2),
            _ => "no call".to_string(alloc),
        }
    }

    fn is_wanted(&self, had: &str, wanted: &str) -> bool {
        had == wanted
    }
}

fn words_of(alloc: Global, given: &str) -> Result<Vec<String>, AllocError> {
    let mut words = Vec::new(alloc);
    if given.is_empty() {
        return Ok(words);
    }
    for word in given.split('|') {
        words.push(word.to_string(alloc)?)?;
    }
    Ok(words)
}

/// A job, as text.
fn shown(alloc: Global, asked: Option<Job>) -> Result<String, AllocError> {
    match asked {
        Some(Job::Run(file)) => format!(in alloc; "run {file}"),
        Some(Job::Serve(file, port, count, socket)) => match socket {
            None => format!(in alloc; "serve {file} {port} {count}"),
            Some(socket) => format!(in alloc; "serve {file} {port} {count} {socket}"),
        },
        Some(Job::Digest(file)) => format!(in alloc; "digest {file}"),
        None => "none".to_string(alloc),
    }
}

/// The digests of what a reader gives, three bytes at a time. It fails at one call, if at any.
fn digested(alloc: Global, given: &str, fails_at: u32) -> Result<String, AllocError> {
    let reads = Reads {
        first: 0,
        step: 3,
        fails_at,
    };
    let mut reader = Slow::new(given.as_bytes(), reads);
    digests_text(alloc, &digest_stream(&mut reader))
}

/// The length and the digests as the program prints them, or the fault.
fn digests_text(
    alloc: Global,
    digests: &Result<(u64, [u8; 32], [u8; 64]), DigestFault>,
) -> Result<String, AllocError> {
    match digests {
        Ok(told) => {
            let sha256 = hex::encode(alloc, &told.1[..])?;
            let sha512 = hex::encode(alloc, &told.2[..])?;
            format!(in alloc; "{} {sha256} {sha512}", told.0)
        }
        Err(fault) => format!(in alloc; "{fault:?}"),
    }
}
