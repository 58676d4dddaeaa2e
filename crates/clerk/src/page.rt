//! Lines that are written together.

use std::alloc::{AllocError, Global};
use std::fmt::Display;
use std::io::Write;

/// The most bytes that are kept back.
const FULL: usize = 4_096;

/// Lines that are kept back, to be written in one call.
#[derive(Drop)]
pub(crate) struct Page {
    text: String,
}

impl Page {
    /// An empty page.
    pub(crate) fn new(alloc: Global) -> Result<Page, AllocError> {
        Ok(Page {
            text: String::with_capacity(alloc, 2 * FULL)?,
        })
    }

    /// Puts a line, and writes what is full. Where there is no memory the line isn't told.
    pub(crate) fn put<L: Display, E: Write>(&mut self, line: &L, err: &mut E) {
        let _put = writeln!(self.text, "{line}");
        if self.text.len() >= FULL {
            self.flush(err);
        }
    }

    /// Writes all lines. What can't be written isn't told.
    pub(crate) fn flush<E: Write>(&mut self, err: &mut E) {
        if !self.text.is_empty() {
            let _written = err.write_all(self.text.as_bytes());
            let _flushed = err.flush();
            self.text.clear();
        }
    }
}
