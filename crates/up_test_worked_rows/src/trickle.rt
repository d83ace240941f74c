//! A reader over memory that gives a few bytes at a time.
use std::io;
use std::io::Read;

/// Gives at most so many bytes a call.
#[derive(Drop)]
pub(crate) struct Trickle<'a> {
    pub(crate) bytes: &'a [u8],
    pub(crate) most: usize,
}

impl Read for Trickle<'_> {
    fn read(&mut self, buf: &mut [u8]) -> io::Result<usize> {
        let n = self.most.min(self.bytes.len()).min(buf.len());
        let (front, rest) = self.bytes.split_at(n);
        buf[..n].copy_from_slice(front);
        self.bytes = rest;
        Ok(n)
    }
}
