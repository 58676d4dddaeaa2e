//! Devices whose failures are counted.

ghost use Rattle.std.specs.Prelude.{◌≡◌, ◌<◌, ◌-◌, length, IfOk};
ghost use Rattle.std.specs.Io.{ReadsAtMost, WritesAtMost};
ghost use Rattle.std.specs.Io.KnownBytes.{ReadConsumes, WriteAppends};
ghost use Rattle.tcp_front.specs.Counts.{device_of, failures_of, may_fail};
ghost use Rattle.tcp_front.specs.Counts.{CountsFailure};

use std::io;
use std::io::{ErrorKind, Read, Write};

/// A reader or a writer, and how often it failed. The count stays at the last value of its type.
#[derive(Drop)]
pub struct Counted<D> {
    device: D,
    failures: u64,
}

impl<D> Counted<D> {
    /// A device that didn't fail yet.
    pub fn new(device: D) -> Counted<D>
        ensures device { device_of result ≡ device }
        ensures failures { failures_of result ≡ 0 }
    {
        Counted {
            device,
            failures: 0,
        }
    }

    /// How often it failed.
    pub fn failures(&self) -> u64
        ensures { result ≡ failures_of self.now }
    {
        self.failures
    }

    /// The device.
    pub fn into_device(self) -> D
        ensures { result ≡ device_of self }
    {
        let Counted {
            device,
            failures: _,
        } = self;
        device
    }
}

impl<R: Read> Counted<R> {
    /// Reads some bytes. Each error counts.
    pub fn read_some(&mut self, block: &mut [u8]) -> io::Result<usize>
        requires { may_fail self.old }
        ensures bound { ReadsAtMost result block.new }
        ensures bytes { ReadConsumes (R.remaining (device_of self.old))
            (R.remaining (device_of self.new)) result block.new }
        ensures counts { CountsFailure self.old result self.new }
    {
        let result = self.device.read(block);
        if result.is_err() {
            self.failures = self.failures.saturating_add(1);
        }
        result
    }
}

impl<W: Write> Counted<W> {
    /// Writes some bytes. Each error counts, and so does a write that takes none of some bytes.
    pub fn write_some(&mut self, bytes: &[u8]) -> io::Result<usize>
        requires some { 0 < length bytes.now }
        requires room { may_fail self.old }
        ensures bound { WritesAtMost result bytes.now }
        ensures bytes { WriteAppends (W.contents (device_of self.old))
            (W.contents (device_of self.new)) result bytes.now }
        ensures counts { CountsFailure self.old result self.new }
        ensures some { IfOk result (λ taken. 0 < taken) }
    {
        let result = match self.device.write(bytes) {
            Ok(0) => Err(ErrorKind::WriteZero.into()),
            other => other,
        };
        if result.is_err() {
            self.failures = self.failures.saturating_add(1);
        }
        result
    }
}
