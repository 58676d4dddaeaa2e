//! What a device had no room for.

ghost use Rattle.std.specs.Prelude.{◌≡◌, ◌≤◌, ◌++◌, ◌↔◌, [], List, ℕ, length, drop, min, IsTrue};
ghost use Rattle.tcp_front.specs.Writing.{records_of};
ghost use Rattle.connections.specs.Connections.{most_counted};
ghost use Rattle.connections.specs.Rests.{list_of};

use crate::backlog::Backlog;
use outboxes::Record;
use std::alloc::Global;
use std::marker::Model;

/// Bytes that wait to be written: some of records that were joined, and behind them those of one
/// record that weren't copied, the last this many.
#[derive(Drop)]
pub(crate) struct Rest {
    joined: Backlog,
    alone: Option<Record>,
    /// How many of its bytes aren't written yet.
    left: usize,
}

impl Model for Rest {
    ghost use Rattle.std.specs.Prelude.{List, ℕ, ◌++◌};
    ghost use Rattle.connections.specs.Rests.{last_of, IsWithin};

    ghost Value = { List ℕ };

    ghost view = { λ r. r.joined ++ last_of r.left r.alone };

    ghost invariant = { λ r. IsWithin r.left r.alone };
}

impl Rest {
    /// Nothing.
    pub(crate) fn new(alloc: Global) -> Rest
        ensures { result ≡ [] }
    {
        Rest {
            joined: Backlog::new(alloc),
            alone: None,
            left: 0,
        }
    }

    /// What is left of a buffer from an offset on, and then a record. The bytes of the buffer are
    /// copied, and where there is no memory for that, its own vector is taken.
    pub(crate) fn of(
        alloc: Global,
        buffer: &mut Vec<u8>,
        offset: usize,
        alone: Option<Record>,
    ) -> Rest
        requires { offset ≤ length buffer.old.items }
        ensures { result ≡ drop offset buffer.old.items ++ records_of (list_of alone) }
    {
        let joined = Backlog::of(alloc, buffer, offset);
        let left = match &alone {
            Some(record) => record.as_slice().len(),
            None => 0,
        };
        Rest {
            joined,
            alone,
            left,
        }
    }

    /// Whether nothing waits.
    pub(crate) fn is_empty(&self) -> bool
        ensures { IsTrue result ↔ (self.now ≡ []) }
    {
        self.first().is_empty()
    }

    /// How many bytes wait.
    pub(crate) fn len(&self) -> usize
        ensures { result ≡ min (length self.now) most_counted }
    {
        match &self.alone {
            Some(_record) => self.joined.len().saturating_add(self.left),
            None => self.joined.len(),
        }
    }

    /// What is to be written first, in one piece: all of it, or what stands before the record that
    /// wasn't copied.
    pub(crate) fn first(&self) -> &[u8]
        ensures begins { (others : List ℕ) × (self.now ≡ result.now ++ others) }
        ensures some { result.now ≡ [] → self.now ≡ [] }
    {
        if !self.joined.is_empty() {
            return self.joined.as_slice();
        }
        match &self.alone {
            Some(record) => {
                let bytes = record.as_slice();
                &bytes[bytes.len() - self.left..]
            }
            None => &[],
        }
    }

    /// Forgets this many bytes, the first ones.
    pub(crate) fn forget(&mut self, size: usize)
        requires { size ≤ length self.old }
        ensures { self.new ≡ drop size self.old }
    {
        let joined = self.joined.len();
        if size <= joined {
            self.joined.forget(size);
            return;
        }
        self.joined.forget(joined);
        self.left -= size - joined;
        if self.left == 0 {
            self.alone = None;
        }
    }
}
