//! Messages that begin, wait again or are finished.

ghost use Rattle.std.specs.Prelude.{◌≡◌, ◌+◌, ◌<◌, ◌≤◌, ◌↔◌, length, IfOk, IsErr, OnErr};
ghost use Rattle.nfs_values.specs.Moment.{moment_of};
ghost use Rattle.nfs_values.specs.Reply.{reply_of};
ghost use Rattle.engine_feed.specs.Codec.{reply_record};
ghost use Rattle.engine_feed.specs.Seen.{layout_in, messages_of, running_count, finished_message};
ghost use Rattle.engine_feed.specs.Sound.{IsSoundConnection, AreSound, IsAdmitted, HasReplied};
ghost use Rattle.engine_feed.specs.Words.{HasBegun, HasPutBack, HasLeft};

use crate::finishing::{keep_entry, write_reply};
use crate::state::{CallsState, ConnectionState};
use nfs_values::{Call, Moment, Reply};
use rpc_msg::Request;
use scheduler::laws::nodes_have_queues;
use scheduler::{Message, NoSuchCall};

/// Takes the message at a place of the list, which runs from now on.
pub(crate) fn begin(calls: &mut CallsState, place: usize) -> Result<Message<Call>, NoSuchCall>
    requires { AreSound calls.old }
    ensures begun { IfOk result (λ m. HasBegun calls.old place m calls.new) }
    ensures none { IsErr result ↔ (length (messages_of calls.old) ≤ place) }
    ensures err { OnErr result (calls.new ≡ calls.old) }
    ensures sound { AreSound calls.new }
{
    let message = calls.waiting.pick(place)?;
    calls.running += 1;
    Ok(message)
}

/// Lets a message that ran wait again, after all others.
pub(crate) fn put_back(calls: &mut CallsState, message: Message<Call>)
    requires sound { AreSound calls.old }
    requires runs { 0 < running_count calls.old }
    requires admitted { IsAdmitted (layout_in calls.old) message }
    ensures back { HasPutBack calls.old message calls.new }
    ensures sound { AreSound calls.new }
{
    nodes_have_queues();
    calls.running -= 1;
    calls.waiting.put_back(message);
}

/// Keeps the entry of a message that ran.
pub(crate) fn leave(calls: &mut CallsState, message: Message<Call>, moment: Moment, starved: bool)
    requires sound { AreSound calls.old }
    requires runs { 0 < running_count calls.old }
    ensures left { HasLeft calls.old (finished_message message (moment_of moment) starved)
        calls.new }
    ensures sound { AreSound calls.new }
{
    let origin = message.origin;
    let affinity = Some(message.affinity);
    let request = Request::Call {
        call: message.call,
        caller: message.caller,
    };
    keep_entry(calls, origin, request, affinity, moment, starved);
    calls.running -= 1;
}

/// Writes the reply to a message that ran, and gives up the room that was kept for it.
pub(crate) fn reply_to(
    connection: &mut ConnectionState,
    xid: u32,
    room: usize,
    reply: &Reply,
) -> usize
    requires sound { IsSoundConnection connection.old }
    requires owed { room ≤ connection.old.owed }
    requires short { room ≤ 131072 }
    requires fits { length (reply_record xid (reply_of reply.now)) ≤ room }
    ensures replied { HasReplied connection.old connection.new
        (reply_record xid (reply_of reply.now)) room }
    ensures count { result ≡ length (reply_record xid (reply_of reply.now)) }
    ensures sound { IsSoundConnection connection.new }
{
    let count = write_reply(connection, xid, reply);
    connection.owed -= room;
    count
}
