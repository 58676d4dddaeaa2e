//! Reply records.

ghost use Rattle.std.specs.Prelude.{◌≡◌, ◌+◌, ◌≤◌, ◌++◌, length, vec_len, vec_capacity};
ghost use Rattle.nfs_values.specs.Reply.{reply_of};
ghost use Rattle.engine_feed.specs.Codec.{reply_record};

use nfs_values::Reply;
use rpc_msg::write_reply_record;

/// Appends a reply record, for which there is room.
pub(crate) fn put_reply(out: &mut Vec<u8>, xid: u32, reply: &Reply)
    requires short { length (reply_record xid (reply_of reply.now)) ≤ 131072 }
    requires room { vec_len out.old + length (reply_record xid (reply_of reply.now))
        ≤ vec_capacity out.old }
    ensures items { out.new.items ≡ out.old.items ++ reply_record xid (reply_of reply.now) }
    ensures capacity { vec_capacity out.old ≤ vec_capacity out.new }
{
    write_reply_record(out, xid, reply).unwrap();
}
