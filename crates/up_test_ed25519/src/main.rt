//! Ed25519 and files signed under it elsewhere, by cases: each is what a call is given, and what it has to answer. `ed25519_cases`
//! and `brought_cases` make them.
#![tactic(auto)]

mod brought;
mod calls;
mod keys;

use crate::calls::Calls25519;
use std::alloc::{AllocError, Global};
use std::io;
use up_ed25519::cached_scheme::CachedEd25519;
use up_ed25519::scheme::Ed25519;
use up_test_common::sections;

/// Tells of each section on standard input. `# CALL` heads each, `## cached` those that are answered by one scheme that keeps keys, and
/// `## brought` those on files, all behind another line.
fn main(rt: HostRuntime) -> io::Result<()> {
    let text = io::read_to_string(rt.alloc(), rt.stdin())?;
    for part in text.as_str().split("\n## ") {
        let (kind, sections) = part.split_once("\n# ").unwrap_or((part, ""));
        tell_all(&rt, kind, sections)?;
    }
    Ok(())
}

fn tell_all(rt: &HostRuntime, kind: &str, sections: &str) -> io::Result<()> {
    let mut cached = Calls25519 {
        scheme: CachedEd25519::new(rt.alloc()),
    };
    for section in sections.split("\n# ") {
        if !section.is_empty() {
            let line = told(rt.alloc(), &mut cached, kind, section)?;
            println!(rt; "{line}")?;
        }
    }
    Ok(())
}

fn told(
    alloc: Global,
    cached: &mut Calls25519<CachedEd25519>,
    kind: &str,
    section: &str,
) -> Result<String, AllocError> {
    match kind {
        "brought" => brought::told_in(alloc, section),
        "cached" => sections::told(alloc, cached, section),
        _ => sections::told(alloc, &mut Calls25519 { scheme: Ed25519 }, section),
    }
}
