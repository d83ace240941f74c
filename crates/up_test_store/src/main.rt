//! The tables and the store through their public calls, by cases: `tables` and `store` say what a section is carried out over.
#![tactic(auto)]

mod store;
mod tables;

use std::alloc::{AllocError, Global};
use std::{env, io};

/// Tells of each section on standard input. `## KIND` heads the sections of one kind of calls, and `# WORDS` each of them, both
/// behind another line.
fn main(rt: HostRuntime) -> io::Result<()> {
    let text = io::read_to_string(rt.alloc(), rt.stdin())?;
    let words = env::args(&rt)?.skip(1).collect::<Vec<String>>(rt.alloc())?;
    for part in text.as_str().split("\n## ") {
        let (kind, sections) = part.split_once("\n# ").unwrap_or((part, ""));
        tell_all(&rt, words.as_slice(), kind, sections)?;
    }
    Ok(())
}

fn tell_all(rt: &HostRuntime, words: &[String], kind: &str, sections: &str) -> io::Result<()> {
    for section in sections.split("\n# ") {
        if !section.is_empty() {
            let line = told(rt.alloc(), words, kind, section)?;
            println!(rt; "{line}")?;
        }
    }
    Ok(())
}

fn told(alloc: Global, words: &[String], kind: &str, section: &str) -> Result<String, AllocError> {
    match kind {
        "tables" => tables::calls::told_in(alloc, section),
        "store" => store::told_in(alloc, words, section),
        _ => format!(in alloc; "no kind of calls: {kind}"),
    }
}
