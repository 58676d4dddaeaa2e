//! Calls that are finished: their replies, and their entries.

ghost use Rattle.std.specs.Prelude.{◌≡◌, ◌+◌, ◌≤◌, ◌<◌, ◌∷◌, ◌++◌, [], length, map, option_map};
ghost use Rattle.std.specs.Prelude.{vec_len, vec_capacity};
ghost use Rattle.nfs_values.specs.Moment.{moment_of};
ghost use Rattle.nfs_values.specs.Reply.{reply_of};
ghost use Rattle.affinity.specs.Affinity.{call_node};
ghost use Rattle.engine_feed.specs.Codec.{reply_record};
ghost use Rattle.engine_feed.specs.Seen.{asked_of, entry_at, entry_of};
ghost use Rattle.engine_feed.specs.Sound.{IsWrittenTo, KeepsEntry};

use crate::message::FinishedCall;
use crate::reply::put_reply;
use crate::state::{CallsState, ConnectionState};
use affinity::CallNode;
use nfs_values::{Moment, Reply};
use rpc_msg::Request;
use scheduler::Origin;

/// Writes a reply record, for which there is room, and answers how many bytes it has.
pub(crate) fn write_reply(to: &mut ConnectionState, xid: u32, reply: &Reply) -> usize
    requires short { length (reply_record xid (reply_of reply.now)) ≤ 131072 }
    requires room { vec_len to.old.output + length (reply_record xid (reply_of reply.now))
        ≤ vec_capacity to.old.output }
    ensures written { IsWrittenTo to.old to.new (reply_record xid (reply_of reply.now)) }
    ensures count { result ≡ length (reply_record xid (reply_of reply.now)) }
{
    let before = to.output.len();
    put_reply(&mut to.output, xid, reply);
    to.output.len() - before
}

/// Keeps the entry of a finished call, for which there is room.
pub(crate) fn keep_entry(
    calls: &mut CallsState,
    origin: Origin,
    request: Request,
    affinity: Option<CallNode>,
    moment: Moment,
    starved: bool,
)
    requires { vec_len calls.old.finished < vec_capacity calls.old.finished }
    ensures kept { map entry_of calls.new.finished.items ≡ map entry_of calls.old.finished.items
        ++ entry_at origin (asked_of request) (option_map call_node affinity)
        (moment_of moment) starved ∷ [] }
    ensures keeps { KeepsEntry calls.old calls.new }
{
    calls.finished.push_reserved(FinishedCall {
        origin,
        request,
        affinity,
        moment,
        starved,
    });
}
