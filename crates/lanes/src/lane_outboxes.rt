//! The outboxes of a lane, beside memory that is used again.

ghost use Rattle.std.specs.Prelude.{◌≡◌, None, option_map, IfOk, IfSome};
ghost use Rattle.slab.specs.Slab.{get};
ghost use Rattle.connections.specs.Connections.{now_of};
ghost use Rattle.connections.specs.Keyed.{Closes, HasBegun, Opens, WritesUnder};

use affinity::CallNode;
use connections::{Connection, Device, Sent, close_under, open_under, write_under};
use granted_calls::{Answer, AnswerSink, Envelope, Spent};
use nfs_values::{ConnectionNumber, Reply};
use outboxes::Outboxes;
use rpc_msg::BoxedCall;
use scheduler::Origin;
use slab::Slab;
use std::alloc::{AllocError, Global};
use std::marker::Model;
use tcp_front::Peer;

/// Of how many calls that were finished the memory is kept.
const MOST_SPARE: usize = 1_024;

/// A lane's outboxes, and the memory of calls that were finished, for those to come.
pub struct LaneOutboxes {
    boxes: Outboxes,
    spare: Vec<Spent>,
}

// By hand, so that crates above have no proof of the drop of each of its parts.
impl Drop for LaneOutboxes {
    fn drop(self) {
        let LaneOutboxes { boxes: _, spare: _ } = self;
    }
}

impl Model for LaneOutboxes {
    ghost use Rattle.std.specs.Coded.{codes};
    ghost use Rattle.outboxes.specs.Boxes.{Boxes, coded_boxes};

    ghost Value = { Boxes };

    ghost coded = { coded_boxes (Prim.hlevel (codes)) };

    ghost view = { λ r. r.boxes };
}

impl LaneOutboxes {
    ghost use Rattle.std.specs.Prelude.{◌≡◌, ◌≤◌, length, IfOk, OnOk, OnErr};
    ghost use Rattle.nfs_values.specs.Reply.{reply_of};
    ghost use Rattle.outboxes.specs.Boxes.{addressed, most_bytes, put};
    ghost use Rattle.outboxes.specs.Messages.{message, record_of};
    ghost use Rattle.scheduler.specs.Messages.{message_at};

    /// These outboxes, and no memory beside them.
    pub(crate) fn new(alloc: Global, boxes: Outboxes) -> LaneOutboxes
        ensures { result ≡ boxes }
    {
        LaneOutboxes {
            boxes,
            spare: Vec::new(alloc),
        }
    }

    /// The message of a call that was read, with the memory that it was read into, in whose place
    /// other memory comes, which was used before where there is some; with room for a reply of at
    /// most so many bytes.
    pub(crate) fn message(
        &mut self,
        alloc: Global,
        origin: Origin,
        asked: &mut BoxedCall,
        affinity: CallNode,
        reply_bound: usize,
    ) -> Result<Envelope, AllocError>
        requires { reply_bound ≤ most_bytes }
        ensures message { IfOk result (λ envelope. envelope
            ≡ message_at origin asked.old.call asked.old.caller affinity reply_bound) }
        ensures same { self.new ≡ self.old }
    {
        let room = self.boxes.room(reply_bound)?;
        let spent = self.spare.pop();
        Envelope::new(alloc, spent, origin, asked, affinity, room)
    }

    /// Puts a reply that no worker answers behind what waits for a connection
    /// (`Outboxes::put_at_once`).
    pub(crate) fn put_at_once(
        &mut self,
        connection: ConnectionNumber,
        xid: u32,
        reply: &Reply,
    ) -> Result<(), AllocError>
        requires { length (record_of (message xid (reply_of reply.now))) ≤ most_bytes }
        ensures ok { OnOk result (self.new
            ≡ put (addressed connection.0 (message xid (reply_of reply.now))) self.old) }
        ensures err { OnErr result (self.new ≡ self.old) }
    {
        self.boxes.put_at_once(connection, xid, reply)
    }
}

impl AnswerSink for LaneOutboxes {
    ghost use Rattle.granted_calls.specs.Chains.{HasPutAll};
    ghost use Rattle.granted_calls.specs.lemmas.Putting.{put_none, put_more};

    ghost took = { HasPutAll };

    fn take_answer(&mut self, answer: Answer) {
        let spent = answer.put_into(&mut self.boxes);
        if self.spare.len() < MOST_SPARE {
            // Where there is no memory for more, it is dropped.
            let _kept = self.spare.push(spent);
        }
    }

    ghost took_none = { put_none };

    ghost took_more = { put_more };
}

/// Opens a connection under the next key, with an outbox (`open_under`).
pub(crate) fn open_in<D: Device>(
    connections: &mut Slab<Connection<D>>,
    alloc: Global,
    outboxes: &mut LaneOutboxes,
    device: D,
    peer: Peer,
) -> Result<usize, D>
    ensures opens { Opens connections.old outboxes.old device peer result connections.new
        outboxes.new }
    ensures vacant { IfOk result (λ key. get connections.old key ≡ None) }
    ensures begins { IfOk result
        (λ key. IfSome (get connections.new key) (HasBegun D.unread D.written)) }
{
    open_under(connections, alloc, &mut outboxes.boxes, device, peer)
}

/// Goes on writing the connection of a key (`write_under`).
pub(crate) fn write_in<D: Device>(
    connections: &mut Slab<Connection<D>>,
    key: usize,
    outboxes: &mut LaneOutboxes,
    buffer: &mut Vec<u8>,
) -> Sent
    ensures { WritesUnder D.unread D.written connections.old key (get connections.old key)
        outboxes.old result connections.new outboxes.new }
{
    write_under(connections, key, &mut outboxes.boxes, buffer)
}

/// Closes the connection of a key, and its outbox (`close_under`).
pub(crate) fn close_in<D>(
    connections: &mut Slab<Connection<D>>,
    key: usize,
    outboxes: &mut LaneOutboxes,
) -> Option<Connection<D>>
    ensures closes { Closes connections.old key outboxes.old (get connections.old key)
        (option_map now_of result) connections.new outboxes.new }
    ensures connection { result ≡ get connections.old key }
{
    close_under(connections, key, &mut outboxes.boxes)
}
