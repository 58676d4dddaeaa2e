//! Devices whose calls are counted.

ghost use Rattle.std.specs.Prelude.{◌≡◌, length};
ghost use Rattle.std.specs.Io.KnownBytes.{Keeps};
ghost use Rattle.connections.specs.Incoming.{GivesNone};
ghost use Rattle.connections.specs.Told.{device_of, calls_of};
ghost use Rattle.connections.specs.Told.{HasCalled, MovesAtMost, HasGiven, HasGot};
ghost use Rattle.connections.specs.Told.{IsAsked};
ghost use Rattle.connections.specs.declared.told.DeviceCall.TheVariants.{Read, Write};

use crate::device::Device;
use crate::told::Told;

/// A device; how often it was called, wrapping at 2^64; and of the last call how many bytes there
/// was room for or were offered, and what it answered.
#[derive(Drop)]
pub struct Watched<D> {
    device: D,
    calls: u64,
    offered: usize,
    last: Told,
}

impl<D> Watched<D> {
    /// A device that wasn't called.
    pub fn new(device: D) -> Watched<D>
        ensures device { device_of result ≡ device }
        ensures calls { calls_of result ≡ 0 }
    {
        Watched {
            device,
            calls: 0,
            offered: 0,
            last: Told::Blocked,
        }
    }

    /// The device.
    pub fn into_device(self) -> D
        ensures { result ≡ device_of self }
    {
        let Watched {
            device,
            calls: _,
            offered: _,
            last: _,
        } = self;
        device
    }
}

impl<D: Device> Watched<D> {
    /// Reads once: the device is asked just once, whatever it answers.
    pub fn read_once(&mut self, block: &mut [u8]) -> Told
        ensures bound { MovesAtMost result block.new }
        ensures bytes { HasGot (D.unread (device_of self.old)) (D.unread (device_of self.new))
            result block.new }
        ensures apart { Keeps (D.written (device_of self.old)) (D.written (device_of self.new)) }
        ensures asked { IsAsked (D.asked (device_of self.old)) (D.asked (device_of self.new))
            (Read (length block.old) result) }
        ensures called { HasCalled self.old (length block.old) result self.new }
    {
        self.calls = self.calls.wrapping_add(1);
        self.offered = block.len();
        self.last = self.device.read_now(block);
        self.last
    }

    /// Writes once: the device is asked just once, whatever it answers.
    pub fn write_once(&mut self, bytes: &[u8]) -> Told
        ensures bound { MovesAtMost result bytes.now }
        ensures bytes { HasGiven (D.written (device_of self.old)) (D.written (device_of self.new))
            result bytes.now }
        ensures apart { GivesNone (D.unread (device_of self.old)) (D.unread (device_of self.new)) }
        ensures asked { IsAsked (D.asked (device_of self.old)) (D.asked (device_of self.new))
            (Write (length bytes.now) result) }
        ensures called { HasCalled self.old (length bytes.now) result self.new }
    {
        self.calls = self.calls.wrapping_add(1);
        self.offered = bytes.len();
        self.last = self.device.write_now(bytes);
        self.last
    }
}
