//! Records that are taken.

ghost use Rattle.std.specs.Prelude.{◌≡◌, ◌≤◌, length};
ghost use Rattle.outboxes.specs.Messages.{record_of};

use crate::chain::Link;
use std::marker::Model;

/// The record of a reply, to be written to its connection.
pub struct Record {
    link: Box<Link>,
}

// By hand, so that crates above have no proof of the drop of each of its parts.
impl Drop for Record {
    fn drop(self) {
        let Record { link: _ } = self;
    }
}

impl Model for Record {
    ghost use Rattle.std.specs.Prelude.{◌≡◌};
    ghost use Rattle.outboxes.specs.Messages.{ReplyMessage, record_of};

    ghost Value = { ReplyMessage };

    ghost view = { λ r. r.link.value.numbered };

    ghost invariant = { λ r. r.link.value.bytes.items ≡ record_of r.link.value.numbered };
}

impl Record {
    /// The bytes of a record: one fragment, the last (RFC 5531 section 11).
    pub fn as_slice(&self) -> &[u8]
        ensures { result.now ≡ record_of self.now }
    {
        &self.link.bytes
    }

    /// How many bytes it has room for.
    pub fn room(&self) -> usize
        ensures { length (record_of self.now) ≤ result }
    {
        self.link.bytes.capacity()
    }

    /// A record whose bytes spell what it says.
    pub(crate) fn new(link: Box<Link>) -> Record
        requires { link.value.bytes.items ≡ record_of link.value.numbered }
        ensures { result ≡ link.value.numbered }
    {
        Record { link }
    }

    /// Its memory.
    pub(crate) fn into_link(self) -> Box<Link> {
        let Record { link } = self;
        link
    }
}
