//! A device in memory that moves few bytes at once, would wait at each second call and after so
//! many bytes, and fails. It tells its bytes.

ghost use Rattle.std.specs.Prelude.{◌≡◌, ◌≤◌, length, take, drop, vec_len};
ghost use Rattle.front_rows.specs.Moving.{IsWithin};

use connections::{Device, Told};

/// How often a device is called until it fails. It would wait at each second call.
#[derive(Drop)]
pub(crate) struct Calls {
    pub(crate) left: usize,
    /// Whether it would wait at the next call.
    pub(crate) is_waiting: bool,
}

impl Calls {
    /// Whether it fails at this call.
    fn fails(&mut self) -> bool {
        if self.left == 0 {
            return true;
        }
        self.left -= 1;
        false
    }

    /// Whether it would wait at this call.
    fn waits(&mut self) -> bool {
        self.is_waiting = !self.is_waiting;
        self.is_waiting
    }
}

/// How many bytes move one way.
#[derive(Drop)]
pub(crate) struct Flow {
    /// At most this many at once.
    pub(crate) size: usize,
    /// This many until it would wait for good.
    pub(crate) left: usize,
}

impl Flow {
    /// This many bytes at once.
    pub(crate) fn by(size: usize) -> Flow {
        Flow {
            size,
            left: usize::MAX,
        }
    }

    /// This many bytes until it would wait for good.
    pub(crate) fn until(left: usize) -> Flow {
        Flow {
            size: usize::MAX,
            left,
        }
    }

    /// Moves what it may of this many bytes.
    fn take(&mut self, most: usize) -> Told
        ensures { IsWithin result most }
    {
        let size = self.size.min(self.left).min(most);
        if size == 0 && most > 0 {
            return Told::Blocked;
        }
        self.left -= size;
        Told::Moved(size)
    }
}

/// What it gives, and what it took.
#[derive(Drop)]
pub(crate) struct Memory {
    pub(crate) stream: Vec<u8>,
    pub(crate) given: usize,
    pub(crate) taken: Vec<u8>,
    pub(crate) calls: Calls,
    pub(crate) gives: Flow,
    pub(crate) takes: Flow,
    pub(crate) ghost within: { given ≤ vec_len stream },
}

/// Fills the first bytes of a block with as many of these.
fn fill(block: &mut [u8], bytes: &[u8], size: usize)
    requires block { size ≤ length block.old }
    requires bytes { size ≤ length bytes.now }
    ensures len { length block.new ≡ length block.old }
    ensures first { take size block.new ≡ take size bytes.now }
{
    block[..size].copy_from_slice(&bytes[..size]);
}

impl Device for Memory {
    ghost use Rattle.std.specs.Prelude.{Some};
    ghost use Rattle.connections.specs.Incoming.{Unread};

    ghost unread = { λ m. Unread (drop m.given m.stream.items) };

    ghost written = { λ m. Some m.taken.items };

    fn read_now(&mut self, block: &mut [u8]) -> Told {
        if self.calls.fails() {
            return Told::Failed;
        }
        if self.calls.waits() {
            return Told::Blocked;
        }
        let rest = &self.stream[self.given..];
        match self.gives.take(block.len().min(rest.len())) {
            Told::Moved(size) => {
                fill(block, rest, size);
                self.given += size;
                Told::Moved(size)
            }
            Told::Blocked => Told::Blocked,
            Told::Failed => Told::Failed,
        }
    }

    fn write_now(&mut self, bytes: &[u8]) -> Told {
        if self.calls.fails() {
            return Told::Failed;
        }
        if self.calls.waits() {
            return Told::Blocked;
        }
        match self.takes.take(bytes.len()) {
            Told::Moved(size) => match self.taken.extend_from_slice(&bytes[..size]) {
                Ok(()) => Told::Moved(size),
                Err(_refused) => Told::Failed,
            },
            Told::Blocked => Told::Blocked,
            Told::Failed => Told::Failed,
        }
    }
}
