//! Readers and writers that cut what goes through them, and fail.

use std::io;
use std::io::{ErrorKind, Read, Write};

/// A reader that gives at most this many bytes at once, and fails after this many reads.
#[derive(Drop)]
pub(crate) struct Cut<'a> {
    pub(crate) rest: &'a [u8],
    pub(crate) size: usize,
    pub(crate) reads: usize,
}

impl Read for Cut<'_> {
    fn read(&mut self, buf: &mut [u8]) -> io::Result<usize> {
        if self.reads == 0 {
            return Err(ErrorKind::ConnectionReset.into());
        }
        self.reads -= 1;
        let size = self.size.min(buf.len());
        self.rest.read(&mut buf[..size])
    }
}

/// A writer that takes at most this many bytes at once, and after this many writes fails, or takes
/// nothing.
#[derive(Drop)]
pub(crate) struct Narrow {
    pub(crate) taken: Vec<u8>,
    pub(crate) size: usize,
    pub(crate) writes: usize,
    pub(crate) is_stuck: bool,
}

impl Write for Narrow {
    fn write(&mut self, buf: &[u8]) -> io::Result<usize> {
        if self.writes == 0 {
            if self.is_stuck {
                return Ok(0);
            }
            return Err(ErrorKind::BrokenPipe.into());
        }
        self.writes -= 1;
        let size = self.size.min(buf.len());
        self.taken.write(&buf[..size])
    }

    fn flush(&mut self) -> io::Result<()> {
        Ok(())
    }
}
