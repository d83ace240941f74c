//! A desk and its service, by cases: what it is sent and answers, files that stop, the words of the command line, and digests.
#![tactic(auto)]

mod command_line;
mod stops;
mod streams;

use crate::command_line::CommandLine;
use std::io;
use up_test_common::sections::told;

/// Tells of each section on standard input. `## KIND` heads the sections of one kind of cases, and `# WORDS` each of them, both
/// behind another line.
fn main(rt: HostRuntime) -> io::Result<()> {
    let text = io::read_to_string(rt.alloc(), rt.stdin())?;
    for part in text.as_str().split("\n## ") {
        let (kind, sections) = part.split_once("\n# ").unwrap_or((part, ""));
        tell_all(&rt, kind, sections)?;
    }
    Ok(())
}

fn tell_all(rt: &HostRuntime, kind: &str, sections: &str) -> io::Result<()> {
    for section in sections.split("\n# ") {
        if !section.is_empty() {
            tell(rt, kind, section)?;
        }
    }
    Ok(())
}

fn tell(rt: &HostRuntime, kind: &str, section: &str) -> io::Result<()> {
    let line = match kind {
        "streams" => return streams::tell_of(rt, section),
        "stops" => stops::in_turn::told(rt.alloc(), section)?,
        "command line" => told(rt.alloc(), &mut CommandLine, section)?,
        _ => format!(in rt.alloc(); "no kind of cases: {kind}")?,
    };
    println!(rt; "{line}")
}
