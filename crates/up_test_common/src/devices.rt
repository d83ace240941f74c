//! Readers that give a few bytes at a time, readers and writers that fail once, and texts that stand for lines of HTTP.
use std::alloc::{AllocError, Global};
use std::io;
use std::io::{Read, Write};

/// How an input comes: so many bytes in the first read, if any are said, so many in each further one, and the read that fails,
/// counted from 1.
#[derive(Clone, Copy, Debug)]
pub struct Reads {
    pub first: usize,
    pub step: usize,
    pub fails_at: u32,
}

/// The writes that fail and that take nothing, counted from 1.
#[derive(Clone, Copy, Debug)]
pub struct Writes {
    pub fails_at: u32,
    pub takes_none_at: u32,
}

/// Gives an input in pieces, and fails once; it would go on afterwards.
#[derive(Drop)]
pub struct Slow<'a> {
    bytes: &'a [u8],
    reads: Reads,
    calls: u32,
}

impl<'a> Slow<'a> {
    /// A reader of which nothing has been read.
    pub fn new(bytes: &'a [u8], reads: Reads) -> Slow<'a> {
        Slow {
            bytes,
            reads,
            calls: 0,
        }
    }
}

impl Read for Slow<'_> {
    fn read(&mut self, buf: &mut [u8]) -> io::Result<usize> {
        self.calls = self.calls.saturating_add(1);
        if self.calls == self.reads.fails_at {
            return Err(io::Error::from(io::ErrorKind::Other));
        }
        let most = if self.reads.first > 0 {
            self.reads.first
        } else {
            self.reads.step
        };
        let n = most.min(self.bytes.len()).min(buf.len());
        let (taken, rest) = self.bytes.split_at(n);
        buf[..n].copy_from_slice(taken);
        self.reads.first = 0;
        self.bytes = rest;
        Ok(n)
    }
}

/// Keeps what is written, and fails once, or takes nothing once; it would go on afterwards.
#[derive(Drop)]
pub struct Shaky {
    written: Vec<u8>,
    writes: Writes,
    calls: u32,
}

impl Shaky {
    /// A writer to which nothing was written.
    pub fn new(alloc: Global, writes: Writes) -> Shaky {
        Shaky {
            written: Vec::new(alloc),
            writes,
            calls: 0,
        }
    }

    /// What was written.
    pub fn written(&self) -> &[u8] {
        self.written.as_slice()
    }

    /// What was written, of a writer that is no longer needed.
    pub fn into_written(self) -> Vec<u8> {
        self.written
    }
}

impl Write for Shaky {
    fn write(&mut self, buf: &[u8]) -> io::Result<usize> {
        self.calls = self.calls.saturating_add(1);
        if self.calls == self.writes.fails_at {
            return Err(io::Error::from(io::ErrorKind::Other));
        }
        if self.calls == self.writes.takes_none_at {
            return Ok(0);
        }
        self.written.extend_from_slice(buf)?;
        Ok(buf.len())
    }

    fn flush(&mut self) -> io::Result<()> {
        Ok(())
    }
}

/// The bytes of a text in which `|` stands for the end of a line, `\n` for a line feed alone, `\t` for a tab and `\xff` for the
/// byte 0xFF.
pub fn bytes_of(alloc: Global, text: &str) -> Result<Vec<u8>, AllocError> {
    let mut out = Vec::new(alloc);
    for piece in text.split("\\xff") {
        if !out.is_empty() {
            out.push(0xff)?;
        }
        push_lines(alloc, &mut out, piece)?;
    }
    Ok(out)
}

fn push_lines(alloc: Global, out: &mut Vec<u8>, piece: &str) -> Result<(), AllocError> {
    let ended = piece.replace(alloc, "|", "\r\n")?;
    let fed = ended.as_str().replace(alloc, "\\n", "\n")?;
    let lines = fed.as_str().replace(alloc, "\\t", "\t")?;
    out.extend_from_slice(lines.as_str().as_bytes())
}

/// The text of bytes, with `|` for the end of a line and `\n` for a line feed alone.
pub fn text_of(alloc: Global, bytes: &[u8]) -> Result<String, AllocError> {
    match std::str::from_utf8(bytes) {
        Ok(text) => in_one_line(alloc, text),
        Err(_) => "no text".to_string(alloc),
    }
}

fn in_one_line(alloc: Global, text: &str) -> Result<String, AllocError> {
    let ended = text.replace(alloc, "\r\n", "|")?;
    ended.as_str().replace(alloc, "\n", "\\n")
}

/// The numbers of which a text is made, a space between, and the rest behind so many; 0 for what is no number.
pub fn numbers<const N: usize>(text: &str) -> ([u32; N], &str) {
    let mut found = [0; N];
    let mut rest = text;
    for i in 0..N {
        let (word, behind) = rest.split_once(' ').unwrap_or((rest, ""));
        found[i] = word.parse::<u32>().unwrap_or(0);
        rest = behind;
    }
    (found, rest)
}
