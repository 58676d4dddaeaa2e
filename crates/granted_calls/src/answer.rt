//! Answers of turns.

ghost use Rattle.std.specs.Prelude.{◌≡◌, ◌≤◌, length};
ghost use Rattle.nfs_values.specs.Reply.{reply_of};
ghost use Rattle.outboxes.specs.Boxes.{addressed, put};
ghost use Rattle.outboxes.specs.Messages.{message, record_of};

use crate::spent::Spent;
use nfs_values::{ConnectionNumber, Reply};
use outboxes::{AddressedRecord, Outboxes, Room};
use std::marker::Model;

/// The reply to a call that a turn finished, on its way to the call's connection, in the room that
/// the call's message brought. A turn alone makes one. It has no `Drop`: who has one must put it
/// into outboxes.
pub struct Answer {
    reply: AddressedRecord,
    spent: Spent,
}

impl Model for Answer {
    ghost use Rattle.outboxes.specs.Boxes.{Addressed};

    ghost Value = { Addressed };

    ghost view = { λ a. a.reply };
}

impl Answer {
    /// The reply to a call of this xid, whose record fits the room. It has no bytes of a READ left.
    pub(crate) fn new(
        connection: ConnectionNumber,
        xid: u32,
        reply: &mut Reply,
        room: Room,
        spent: Spent,
    ) -> Answer
        requires { length (record_of (message xid (reply_of reply.old))) ≤ room }
        ensures { result ≡ addressed connection.0 (message xid (reply_of reply.old)) }
    {
        Answer {
            reply: AddressedRecord::new(connection, xid, reply, room),
            spent,
        }
    }

    /// The connection that it goes to.
    pub fn connection(&self) -> ConnectionNumber
        ensures { result.0 ≡ self.now.connection }
    {
        self.reply.connection()
    }

    /// The xid of its call.
    pub fn xid(&self) -> u32
        ensures { result ≡ self.now.message.xid }
    {
        self.reply.xid()
    }

    /// Puts it behind what waits for its connection. Nothing changes where that isn't open. It
    /// takes no memory, and gives back that of its call.
    pub fn put_into(self, outboxes: &mut Outboxes) -> Spent
        ensures { outboxes.new ≡ put self outboxes.old }
    {
        let Answer { reply, spent } = self;
        outboxes.put(reply);
        spent
    }
}
