//! What a lane's thread knows of its connections beside the lane.

use crate::company::FIRST_BLOCK;
use std::alloc::{AllocError, Global};
use std::net::SocketAddr;

/// What a lane's thread knows of a connection.
#[derive(Clone, Copy)]
pub(crate) struct Guest {
    /// None is the server itself, of which nobody is told.
    pub(crate) peer: Option<SocketAddr>,
    /// The second in which it was heard of last.
    pub(crate) heard: u32,
    /// How much it was owed after a round, as all lanes were told.
    pub(crate) owed: usize,
    /// The second in which it took something last, or began to be owed something.
    pub(crate) taken: u32,
    /// Whether it couldn't be read.
    pub(crate) has_failed: bool,
    /// Whether it stands among those that are in doubt.
    pub(crate) is_doubted: bool,
    /// How many bytes are read of it at once, where it isn't alone.
    pub(crate) block: usize,
}

/// What a lane's thread knows of each of its connections, by its key.
#[derive(Drop)]
pub(crate) struct Guests {
    by_key: Vec<Guest>,
    /// The keys of connections whose last read was short, each once. Mostly nothing more is there
    /// then; but a read also ends before an urgent byte, and the system doesn't tell of what is
    /// behind it.
    doubted: Vec<usize>,
}

/// What stands at a key that no connection had.
fn nobody() -> Guest {
    Guest {
        peer: None,
        heard: 0,
        owed: 0,
        taken: 0,
        has_failed: false,
        is_doubted: false,
        block: FIRST_BLOCK,
    }
}

impl Guests {
    /// No connection, and room for this many.
    pub(crate) fn new(alloc: Global, most: usize) -> Result<Guests, AllocError> {
        Ok(Guests {
            by_key: vec![in alloc; nobody(); most]?,
            doubted: Vec::with_capacity(alloc, most)?,
        })
    }

    /// How many keys there may be.
    pub(crate) fn len(&self) -> usize {
        self.by_key.len()
    }

    /// What is known of the connection of a key.
    pub(crate) fn at(&self, key: usize) -> Guest {
        self.by_key.get(key).copied().unwrap_or(nobody())
    }

    /// A connection of a peer was opened in a second.
    pub(crate) fn admit(&mut self, key: usize, peer: Option<SocketAddr>, now: u32) {
        if let Some(guest) = self.by_key.get_mut(key) {
            *guest = Guest {
                peer,
                heard: now,
                owed: 0,
                taken: now,
                has_failed: false,
                is_doubted: guest.is_doubted,
                block: FIRST_BLOCK,
            };
        }
    }

    /// The connection of a key was heard of in a second.
    pub(crate) fn hear(&mut self, key: usize, now: u32) {
        if let Some(guest) = self.by_key.get_mut(key) {
            guest.heard = now;
        }
    }

    /// The connection of a key couldn't be read.
    pub(crate) fn fail(&mut self, key: usize) {
        if let Some(guest) = self.by_key.get_mut(key) {
            guest.has_failed = true;
        }
    }

    /// So many bytes are to be read at once of the connection of a key.
    pub(crate) fn set_block(&mut self, key: usize, block: usize) {
        if let Some(guest) = self.by_key.get_mut(key) {
            guest.block = block;
        }
    }

    /// The connection of a key took something in a second.
    pub(crate) fn take(&mut self, key: usize, now: u32) {
        if let Some(guest) = self.by_key.get_mut(key) {
            guest.taken = now;
        }
    }

    /// The connection of a key is owed so much after a round. Answers how much it was before.
    pub(crate) fn owe(&mut self, key: usize, owed: usize, now: u32) -> usize {
        match self.by_key.get_mut(key) {
            Some(guest) => {
                let before = guest.owed;
                if before == 0 {
                    guest.taken = now;
                }
                guest.owed = owed;
                before
            }
            None => owed,
        }
    }

    /// The last read of the connection of a key was short.
    pub(crate) fn doubt(&mut self, key: usize) {
        if let Some(guest) = self.by_key.get_mut(key) {
            if !guest.is_doubted && self.doubted.len() < self.doubted.capacity() {
                guest.is_doubted = true;
                self.doubted.push_reserved(key);
            }
        }
    }

    /// How many connections are in doubt.
    pub(crate) fn doubts(&self) -> usize {
        self.doubted.len()
    }

    /// The key of one that is in doubt, which isn't any more.
    pub(crate) fn take_doubt(&mut self) -> Option<usize> {
        let key = self.doubted.pop()?;
        if let Some(guest) = self.by_key.get_mut(key) {
            guest.is_doubted = false;
        }
        Some(key)
    }
}
