//! How much of a lane one of its connections may have.

use crate::keys::NO_KEY;
use crate::socket::Socket;
use lanes::Lane;

/// How many messages wait at most, of all lanes.
const MOST_WAITING: usize = 1_024;

/// A connection that isn't alone may have one in so many of its lane's places.
const SHARE: usize = 8;

/// The fewest bytes that are read at once, and those that are read of a new connection.
const LEAST_BLOCK: usize = 64;

pub(crate) const FIRST_BLOCK: usize = 4_096;

/// The connection of a lane that was heard of last, and the second in which another one was.
pub(crate) struct Company {
    key: usize,
    changed: u32,
}

// By hand, so that crates above have no proof of the drop of each of its parts.
impl Drop for Company {
    fn drop(self) {
        let Company { key: _, changed: _ } = self;
    }
}

impl Company {
    /// None was heard of.
    pub(crate) fn new() -> Company {
        Company {
            key: NO_KEY,
            changed: 0,
        }
    }

    /// The connection of a key was heard of in a second.
    pub(crate) fn meet(&mut self, key: usize, now: u32) {
        if self.key != key {
            self.key = key;
            self.changed = now;
        }
    }

    /// How much each connection of a lane may have in a second: one that alone was heard of in it
    /// and the one before may have all.
    pub(crate) fn share<R>(&self, lane: &Lane<Socket, R>, now: u32) -> Share {
        let is_alone = now.saturating_sub(self.changed) > 1;
        let half = MOST_WAITING / SHARE / 2 / lane.count().max(1);
        Share {
            half: half.max(1),
            times: if is_alone { SHARE } else { 1 },
        }
    }
}

/// How much of a lane a connection may have.
#[derive(Clone, Copy)]
pub(crate) struct Share {
    /// Half of the messages of a connection that isn't alone, which may wait or have replies that
    /// aren't written.
    half: usize,
    /// How many times as many this one may have.
    times: usize,
}

impl Share {
    /// All that there is.
    pub(crate) fn all() -> Share {
        Share {
            half: usize::MAX,
            times: 1,
        }
    }

    /// Half of the messages that the connection may have.
    fn half(&self) -> usize {
        self.half.saturating_mul(self.times)
    }

    /// Whether a connection may be read that is owed so many replies: at least half of what it may
    /// have is free.
    pub(crate) fn may_read(&self, replies: usize) -> bool {
        replies <= self.half()
    }

    /// How many bytes are read at most of a connection of which so many bring about half of what it
    /// may have where it isn't alone. What is read beyond that would be kept, and cut at once.
    pub(crate) fn block(&self, usual: usize) -> usize {
        usual.saturating_mul(self.times)
    }

    /// How many bytes bring about half of what a connection may have where it isn't alone, after a
    /// read by as many as this that brought so many records in so many bytes.
    pub(crate) fn usual_after(&self, usual: usize, bytes: usize, records: usize) -> usize {
        if records > self.half() {
            (bytes / records.max(1))
                .saturating_mul(self.half)
                .max(LEAST_BLOCK)
        } else if bytes >= self.block(usual) && records <= self.half() / 2 {
            usual.saturating_mul(2)
        } else {
            usual
        }
    }
}
