//! What a record says.

use nfs_values::Reply;
use std::marker::Model;
use std::snapshot::Snapshot;

/// A reply under its xid. No bytes are kept of the reply.
#[derive(Drop)]
pub(crate) struct NumberedReply {
    xid: u32,
    reply: Snapshot<Reply>,
}

impl Model for NumberedReply {
    ghost use Rattle.nfs_values.specs.Reply.{reply_of};
    ghost use Rattle.outboxes.specs.Messages.{ReplyMessage, message};

    ghost Value = { ReplyMessage };

    ghost view = { λ s. message s.xid (reply_of s.reply.value) };
}

impl NumberedReply {
    ghost use Rattle.std.specs.Prelude.{◌≡◌};
    ghost use Rattle.nfs_values.specs.Reply.{reply_of};
    ghost use Rattle.outboxes.specs.Messages.{message};

    /// A reply under its xid.
    pub(crate) fn new(xid: u32, reply: &Reply) -> NumberedReply
        ensures { result ≡ message xid (reply_of reply.now) }
    {
        NumberedReply {
            xid,
            reply: Snapshot::of(reply),
        }
    }

    /// The xid.
    pub(crate) fn xid(&self) -> u32
        ensures { result ≡ self.now.xid }
    {
        self.xid
    }
}
