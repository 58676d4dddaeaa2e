//! The connections of a lane that have something to do.

ghost use Rattle.filer_lanes.specs.Lanes.{Stays};

use crate::socket::Socket;
use connections::Flags;
use lanes::Lane;
use std::alloc::{AllocError, Global};

/// No connection has this key: a lane never has this many.
pub(crate) const NO_KEY: usize = usize::MAX;

/// The keys of a lane's connections that may have something to read, to write or to close. Each
/// stands in it once; all others wait for word of the system, and a round doesn't look at them.
#[derive(Drop)]
pub(crate) struct Keys {
    listed: Vec<usize>,
    /// The place that is visited first in this round.
    first: usize,
}

impl Keys {
    /// None, and room for this many.
    pub(crate) fn new(alloc: Global, most: usize) -> Result<Keys, AllocError> {
        Ok(Keys {
            listed: Vec::with_capacity(alloc, most)?,
            first: 0,
        })
    }

    /// How many there are.
    pub(crate) fn len(&self) -> usize {
        self.listed.len()
    }

    /// The key at a place.
    pub(crate) fn at(&self, place: usize) -> usize {
        self.listed.get(place).copied().unwrap_or(NO_KEY)
    }

    /// The next round begins with another one.
    pub(crate) fn turn(&mut self) {
        self.first = if self.first < self.listed.len().saturating_sub(1) {
            self.first + 1
        } else {
            0
        };
    }

    /// The key that is visited after this many others: those from the first on, and then those
    /// before it.
    pub(crate) fn visited(&self, others: usize) -> usize {
        let place = self.first.saturating_add(others);
        let end = self.listed.len();
        self.at(if place < end { place } else { place - end })
    }

    /// Puts another key at a place.
    pub(crate) fn put(&mut self, place: usize, key: usize) {
        if let Some(at) = self.listed.get_mut(place) {
            *at = key;
        }
    }

    /// Keeps the first this many.
    pub(crate) fn truncate(&mut self, kept: usize) {
        self.listed.truncate(kept);
    }

    /// Puts a key last. There is room for as many as there are connections.
    fn add(&mut self, key: usize) {
        if self.listed.len() < self.listed.capacity() {
            self.listed.push_reserved(key);
        }
    }
}

/// Lists the connection of a key, if it isn't yet.
pub(crate) fn list<R>(lane: &mut Lane<Socket, R>, keys: &mut Keys, key: usize)
    ensures { Stays lane.old lane.new }
{
    if let Some(connection) = lane.connection(key) {
        let flags = connection.flags();
        if !flags.is_listed {
            keys.add(key);
            let flags = Flags {
                is_listed: true,
                ..flags
            };
            lane.set_flags(key, flags);
        }
    }
}

/// The connection of a key isn't listed any more.
pub(crate) fn unlist<R>(lane: &mut Lane<Socket, R>, key: usize)
    ensures { Stays lane.old lane.new }
{
    if let Some(connection) = lane.connection(key) {
        let flags = Flags {
            is_listed: false,
            ..connection.flags()
        };
        lane.set_flags(key, flags);
    }
}
