//! Records that are complete: answered at once, or let wait.

ghost use Rattle.std.specs.Prelude.{◌≡◌, ◌+◌, ◌≤◌, ◌<◌, true, false, Some, None, length};
ghost use Rattle.nfs_model.specs.Types as types;
ghost use Rattle.nfs_model.specs.Home.{home_of_asked};
ghost use Rattle.nfs_model.specs.Server.{start_of_times};
ghost use Rattle.rpc_msg.specs.declared.offer.Offer.{Offer as OfferSeen};
ghost use Rattle.nfs_values.specs.Reply.{reply_of};
ghost use Rattle.engine_feed.specs.Codec.{reply_record};
ghost use Rattle.engine_feed.specs.Limit.{reply_limit};
ghost use Rattle.engine_feed.specs.Seen.{asked_of, layout_in, pending, entry_at};
ghost use Rattle.engine_feed.specs.Sound.{IsSoundConnection, AreSound, IsAdmitted};
ghost use Rattle.engine_feed.specs.Sound.{HasRoomToReply, HaveRoomToAdmit};
ghost use Rattle.engine_feed.specs.Words.{HasHeard, Finishes, Waits, Keeps};

use crate::admission::{Admission, admission_of, reply_at_once};
use crate::finishing::{keep_entry, write_reply};
use crate::state::{CallsState, ConnectionState};
use nfs_laws::laws::without_home_stays;
use nfs_values::{Call, Moment, Refusal, Reply};
use rpc_msg::{Offer, Request, refusals_fit, tell};
use scheduler::laws::nodes_have_queues;
use scheduler::{Message, Origin};

/// Answers a call as its record is complete.
fn answer(
    connection: &mut ConnectionState,
    calls: &mut CallsState,
    origin: Origin,
    request: Request,
    reply: &Reply,
)
    requires connection { IsSoundConnection connection.old }
    requires calls { AreSound calls.old }
    requires short { length (reply_record origin.xid (reply_of reply.now)) ≤ reply_limit }
    requires room { HasRoomToReply connection.old }
    requires entry { HaveRoomToAdmit calls.old }
    ensures finishes { Finishes calls.old connection.old
        (entry_at origin (asked_of request) None start_of_times false) (reply_of reply.now)
        calls.new connection.new }
    ensures keeps { Keeps calls.old connection.old origin.connection.0 calls.new connection.new }
{
    write_reply(connection, origin.xid, reply);
    keep_entry(calls, origin, request, None, Moment::START, false);
}

/// Answers a call that there was no memory to decode.
pub(crate) fn starve(connection: &mut ConnectionState, calls: &mut CallsState, origin: Origin)
    requires connection { IsSoundConnection connection.old }
    requires calls { AreSound calls.old }
    requires room { HasRoomToReply connection.old }
    requires entry { HaveRoomToAdmit calls.old }
    ensures starved { (asked : types.Asked) (offer : OfferSeen)
        → HasHeard offer calls.old connection.old origin asked true calls.new connection.new }
    ensures keeps { Keeps calls.old connection.old origin.connection.0 calls.new connection.new }
{
    refusals_fit();
    write_reply(
        connection,
        origin.xid,
        &Reply::Refused(Refusal::SystemError),
    );
    keep_entry(calls, origin, Request::Undecoded, None, Moment::START, true);
}

/// Lets a message of a connection wait, which keeps the room of its reply.
fn wait(connection: &mut ConnectionState, calls: &mut CallsState, message: Message<Call>)
    requires connection { IsSoundConnection connection.old }
    requires calls { AreSound calls.old }
    requires admitted { IsAdmitted (layout_in calls.old) message }
    requires room { HasRoomToReply connection.old }
    requires entry { HaveRoomToAdmit calls.old }
    requires places { pending calls.old < 1024 }
    ensures waits { Waits calls.old connection.old message calls.new connection.new }
    ensures keeps { Keeps calls.old connection.old message.origin.connection.0 calls.new
        connection.new }
{
    nodes_have_queues();
    connection.owed += message.room;
    calls.waiting.put_back(message);
}

/// Answers a record that has no home.
fn answer_now(
    connection: &mut ConnectionState,
    calls: &mut CallsState,
    offer: Offer,
    origin: Origin,
    request: Request,
)
    requires connection { IsSoundConnection connection.old }
    requires calls { AreSound calls.old }
    requires room { HasRoomToReply connection.old }
    requires entry { HaveRoomToAdmit calls.old }
    requires none { home_of_asked (layout_in calls.old) (asked_of request) ≡ None }
    ensures admitted { HasHeard offer calls.old connection.old origin (asked_of request) false
        calls.new connection.new }
    ensures keeps { Keeps calls.old connection.old origin.connection.0 calls.new connection.new }
{
    without_home_stays();
    let mut reply = reply_at_once(connection.alloc, &calls.layout, &request);
    tell(&mut reply, offer.handles());
    answer(connection, calls, origin, request, &reply);
}

/// Lets the call of a record wait, or answers the record at once.
pub(crate) fn admit(
    connection: &mut ConnectionState,
    calls: &mut CallsState,
    offer: Offer,
    origin: Origin,
    request: Request,
)
    requires connection { IsSoundConnection connection.old }
    requires calls { AreSound calls.old }
    requires room { HasRoomToReply connection.old }
    requires entry { HaveRoomToAdmit calls.old }
    requires places { pending calls.old < 1024 }
    ensures admitted { HasHeard offer calls.old connection.old origin (asked_of request) false
        calls.new connection.new }
    ensures keeps { Keeps calls.old connection.old origin.connection.0 calls.new connection.new }
{
    match request {
        Request::Call { call, caller } => match admission_of(&calls.layout, &call) {
            Some(Admission { affinity, room }) => {
                let message = Message {
                    origin,
                    call,
                    caller,
                    affinity,
                    room,
                };
                wait(connection, calls, message);
            }
            None => {
                let request = Request::Call { call, caller };
                answer_now(connection, calls, offer, origin, request);
            }
        },
        Request::Refused(refusal) => {
            answer_now(connection, calls, offer, origin, Request::Refused(refusal));
        }
        Request::Undecoded => answer_now(connection, calls, offer, origin, Request::Undecoded),
    }
}
