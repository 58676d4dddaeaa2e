//! A device in memory that tells its bytes.

ghost use Rattle.std.specs.Prelude.{◌≡◌, ◌≤◌, length, take, drop, vec_len};

use crate::texts::bytes_of;
use connections::{Device, Told};
use std::process::Abort;

/// What it gives, and what it took.
#[derive(Drop)]
pub(crate) struct Memory {
    pub(crate) stream: Vec<u8>,
    pub(crate) given: usize,
    pub(crate) taken: Vec<u8>,
    /// It takes this many bytes more, and then would wait for good.
    pub(crate) room: usize,
    pub(crate) ghost within: { given ≤ vec_len stream },
}

/// A device that gives these records and takes this many bytes.
pub(crate) fn device(rt: &(impl Abort + AllocGlobal), records: &[&[u32]], room: usize) -> Memory {
    Memory {
        stream: bytes_of(rt, records),
        given: 0,
        taken: Vec::new(rt.alloc()),
        room,
    }
}

/// Fills the first bytes of a block with as many of these.
fn fill(block: &mut [u8], bytes: &[u8], size: usize)
    requires block { size ≤ length block.old }
    requires bytes { size ≤ length bytes.now }
    ensures len { length block.new ≡ length block.old }
    ensures first { take size block.new ≡ take size bytes.now }
{
    block[..size].copy_from_slice(&bytes[..size]);
}

impl Device for Memory {
    ghost use Rattle.std.specs.Prelude.{Some};
    ghost use Rattle.connections.specs.Incoming.{Unread};

    ghost unread = { λ m. Unread (drop m.given m.stream.items) };

    ghost written = { λ m. Some m.taken.items };

    fn read_now(&mut self, block: &mut [u8]) -> Told {
        let rest = &self.stream[self.given..];
        let size = block.len().min(rest.len());
        fill(block, rest, size);
        self.given += size;
        Told::Moved(size)
    }

    fn write_now(&mut self, bytes: &[u8]) -> Told {
        let size = self.room.min(bytes.len());
        if size == 0 && bytes.len() > 0 {
            return Told::Blocked;
        }
        self.room -= size;
        match self.taken.extend_from_slice(&bytes[..size]) {
            Ok(()) => Told::Moved(size),
            Err(_refused) => Told::Failed,
        }
    }
}
