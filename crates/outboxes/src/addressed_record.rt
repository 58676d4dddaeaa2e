//! Reply records on their way.

ghost use Rattle.std.specs.Prelude.{◌≡◌, ◌≤◌, length};
ghost use Rattle.nfs_values.specs.Reply.{reply_of};
ghost use Rattle.outboxes.specs.Boxes.{addressed};
ghost use Rattle.outboxes.specs.Messages.{message, record_of};

use crate::chain::Link;
use crate::room::Room;
use nfs_values::{ConnectionNumber, Reply};
use std::marker::Model;

/// The record of a reply, on its way to a connection, in the room that was got for it. It has no
/// `Drop`: who has one must put it into the outboxes.
pub struct AddressedRecord {
    connection: ConnectionNumber,
    link: Box<Link>,
}

impl Model for AddressedRecord {
    ghost use Rattle.std.specs.Prelude.{◌≡◌};
    ghost use Rattle.outboxes.specs.Boxes.{Addressed, addressed};
    ghost use Rattle.outboxes.specs.Messages.{record_of};

    ghost Value = { Addressed };

    ghost view = { λ a. addressed a.connection.0 a.link.value.numbered };

    ghost invariant = { λ a. a.link.value.bytes.items ≡ record_of a.link.value.numbered };
}

impl AddressedRecord {
    /// The reply to a call of this xid, whose record fits the room. The record is written here,
    /// so that who puts it moves no bytes; those of a READ aren't copied, and the reply has none
    /// left.
    pub fn new(
        connection: ConnectionNumber,
        xid: u32,
        reply: &mut Reply,
        room: Room,
    ) -> AddressedRecord
        requires { length (record_of (message xid (reply_of reply.old))) ≤ room }
        ensures { result ≡ addressed connection.0 (message xid (reply_of reply.old)) }
    {
        let link = room.write(xid, reply);
        AddressedRecord { connection, link }
    }

    /// The connection that it goes to.
    pub fn connection(&self) -> ConnectionNumber
        ensures { result.0 ≡ self.now.connection }
    {
        self.connection
    }

    /// The xid of its call.
    pub fn xid(&self) -> u32
        ensures { result ≡ self.now.message.xid }
    {
        self.link.numbered.xid()
    }

    /// Its connection, and its record.
    pub(crate) fn into_parts(self) -> (ConnectionNumber, Box<Link>)
        ensures is { addressed result.0.0 result.1.value.numbered ≡ self }
        ensures written { result.1.value.bytes.items ≡ record_of result.1.value.numbered }
    {
        let AddressedRecord { connection, link } = self;
        (connection, link)
    }
}
