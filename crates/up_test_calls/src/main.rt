//! Calls of crates that keep no database, by cases: each is what a call is given, and what it has to answer.
#![tactic(auto)]

mod columns;
mod decisions;
mod requests;
mod texts;

use std::alloc::{AllocError, Global};
use std::io;

/// Tells of each section on standard input. `## KIND` heads the sections of one kind of calls, and `# WORDS` each of them, both
/// behind another line.
fn main(rt: HostRuntime) -> io::Result<()> {
    let text = io::read_to_string(rt.alloc(), rt.stdin())?;
    for part in text.as_str().split("\n## ") {
        let (kind, sections) = part.split_once("\n# ").unwrap_or((part, ""));
        tell_all(&rt, kind, sections)?;
    }
    Ok(())
}

fn tell_all(rt: &HostRuntime, kind: &str, sections: &str) -> io::Result<()> {
    for section in sections.split("\n# ") {
        if !section.is_empty() {
            let line = told(rt.alloc(), kind, section)?;
            println!(rt; "{line}")?;
        }
    }
    Ok(())
}

fn told(alloc: Global, kind: &str, section: &str) -> Result<String, AllocError> {
    match kind {
        "texts" => texts::told_in(alloc, section),
        "columns" => columns::told_in(alloc, section),
        "requests" => requests::told_in(alloc, section),
        "decisions" => decisions::told_in(alloc, section),
        _ => format!(in alloc; "no kind of calls: {kind}"),
    }
}
