//! Readers and writers that fail.

use crate::looking::{holds, joined, put, same};
use crate::replaying::texts::LAYOUT;
use scripts::replay;
use std::io;
use std::io::{Read, Write};
use std::process::Abort;

/// A reader that gives some bytes, and then fails.
#[derive(Drop)]
struct Broken<'a>(&'a [u8]);

impl Read for Broken<'_> {
    fn read(&mut self, buf: &mut [u8]) -> io::Result<usize> {
        if self.0.is_empty() {
            return Err(io::Error::from(io::ErrorKind::BrokenPipe));
        }
        self.0.read(buf)
    }
}

/// A writer that takes this many writes, and then fails, as a flush of it does where it is cut.
#[derive(Drop)]
struct Closing {
    left: usize,
    is_cut: bool,
    taken: Vec<u8>,
}

impl Write for Closing {
    fn write(&mut self, buf: &[u8]) -> io::Result<usize> {
        if self.left == 0 {
            return Err(io::Error::from(io::ErrorKind::BrokenPipe));
        }
        self.left -= 1;
        self.taken.write(buf)
    }

    fn flush(&mut self) -> io::Result<()> {
        if self.is_cut {
            return Err(io::Error::from(io::ErrorKind::BrokenPipe));
        }
        Ok(())
    }
}

/// What is written of a script's output that fails after this many writes. The script ends with 1.
fn cut(rt: &(impl Abort + AllocGlobal), script: &str, left: usize, is_cut: bool) -> Vec<u8> {
    let mut out = Closing {
        left,
        is_cut,
        taken: Vec::new(rt.alloc()),
    };
    holds(
        rt,
        replay(rt.alloc(), &mut script.as_bytes(), &mut out) == 1,
    );
    let Closing { taken, .. } = out;
    taken
}

#[test]
fn readers_fail(rt: HostRuntime) {
    let mut out = Vec::new(rt.alloc());
    let mut broken = Broken(LAYOUT.as_bytes());
    holds(&rt, replay(rt.alloc(), &mut broken, &mut out) == 1);
    same(&rt, &out, b"fault 61\n");
}

#[test]
fn writers_fail(rt: HostRuntime) {
    // 1,000 lines of 9 bytes, which are more than are kept back
    let mut script = joined(&rt, &[LAYOUT, "open\n"]);
    put(&rt, &mut script, "close 1\n", 1_000);
    let mut printed = joined(&rt, &["conn 0\n"]);
    put(&rt, &mut printed, "refused 36\n", 1_000);
    holds(&rt, cut(&rt, &script, 0, false).is_empty());
    let some = cut(&rt, &script, 1, false);
    holds(&rt, some.len() > 0 && some.len() < printed.len());
    holds(&rt, printed.as_bytes().starts_with(&some));
}

#[test]
fn flushes_fail(rt: HostRuntime) {
    let script = joined(&rt, &[LAYOUT, "open\n"]);
    same(&rt, &cut(&rt, &script, 9, true), b"conn 0\n");
}
