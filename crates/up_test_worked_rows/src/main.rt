//! Worked rows: lists of lines, each with the answer that the rules give it. Each row is carried out as a script in one piece,
//! as a script read one byte at a time, as one run over its commands, by one call after another, and by calls of which each has
//! a desk of its own, which takes the database that the one before it let go of: over a database in memory, and over files.
#![tactic(auto)]

mod commands;
mod compared;
mod marked;
mod media;
mod row;
mod scripts;
mod telling;
mod trickle;
mod ways;

use crate::telling::told;
use std::io;

/// Tells of each row on standard input. Each begins with a line `row NAME` behind another line.
fn main(rt: HostRuntime) -> io::Result<()> {
    let text = io::read_to_string(rt.alloc(), rt.stdin())?;
    for row in text.as_str().split("\nrow ") {
        if !row.is_empty() {
            let line = told(rt.alloc(), row)?;
            println!(rt; "{line}")?;
        }
    }
    Ok(())
}
