//! Streams of requests and scripts at a desk, by cases: each is what a desk is sent, and what it has to answer, byte by byte.
//!
//! Each section has a desk of its own over tables in memory, and then another over files; `cases` says how they are spelled. In
//! sections whose words begin with `sockets` a client and the service speak over a socket.
mod cases;
mod desks;
mod runs;
mod sockets;
mod sweeps;

use crate::streams::cases::told_over;
use crate::streams::desks::Medium;
use crate::streams::sockets::told_over_sockets;
use std::io;

/// Tells of a section over sockets, or over both media.
pub(crate) fn tell_of(rt: &HostRuntime, section: &str) -> io::Result<()> {
    if section.starts_with("sockets") {
        let line = told_over_sockets(rt, section)?;
        return println!(rt; "{line}");
    }
    tell(rt, section)
}

/// Tells of a section over both media.
fn tell(rt: &HostRuntime, section: &str) -> io::Result<()> {
    let memory = told_over(rt.alloc(), Medium::Memory, section)?;
    println!(rt; "in memory, {memory}")?;
    let files = told_over(rt.alloc(), Medium::Files, section)?;
    println!(rt; "in files, {files}")
}
