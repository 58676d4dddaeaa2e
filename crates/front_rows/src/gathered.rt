//! A sink that keeps what comes to it.

ghost use Rattle.std.specs.Prelude.{◌≡◌, IfOk};
ghost use Rattle.affinity.specs.Layout.{layout_of};
ghost use Rattle.front_rows.specs.Gathering.{HasGathered, gathered_none, gathered_more};

use affinity::{CallNode, Layout};
use nfs_values::{Call, ConnectionNumber, Reply};
use outboxes::Outboxes;
use rpc_msg::{BoxedCall, DecodedCall};
use scheduler::{Message, Origin};
use std::alloc::{AllocError, Global};
use tcp_front::RecordSink;

/// The calls that came, and the replies, each in the outbox of its connection.
#[derive(Drop)]
pub struct Gathered {
    pub layout: Layout,
    pub calls: Vec<Message<Call>>,
    pub outboxes: Outboxes,
    /// How often it was told of what came.
    pub reads_ended: u64,
}

impl Gathered {
    /// Nothing came, and no connection is open.
    pub fn new(alloc: Global, layout: &Layout) -> Result<Gathered, AllocError>
        ensures { IfOk result (λ sink. layout_of sink.layout ≡ layout_of layout.now) }
    {
        Ok(Gathered {
            layout: layout.copied(alloc)?,
            calls: Vec::new(alloc),
            outboxes: Outboxes::new(alloc),
            reads_ended: 0,
        })
    }
}

impl RecordSink for Gathered {
    ghost came = { λ s xs t. HasGathered s.calls.items s.outboxes xs t.calls.items t.outboxes };

    ghost layout = { λ s. layout_of s.layout };

    fn has_room(&self) -> bool {
        true
    }

    fn admit(
        &mut self,
        origin: Origin,
        asked: &mut BoxedCall,
        affinity: CallNode,
        reply_bound: usize,
    ) -> Result<(), AllocError> {
        let DecodedCall { call, caller } = asked.take();
        Ok(
            self.calls.push(Message {
                origin,
                call,
                caller,
                affinity,
                room: reply_bound,
            })?,
        )
    }

    fn answer(
        &mut self,
        connection: ConnectionNumber,
        xid: u32,
        reply: &mut Reply,
    ) -> Result<(), AllocError> {
        self.outboxes.put_at_once(connection, xid, reply)
    }

    fn read_ended(&mut self) {
        self.reads_ended = self.reads_ended.saturating_add(1);
    }

    ghost came_none = { λ s. gathered_none s.calls.items s.outboxes };

    ghost came_more = { λ s t u xs ys f g. gathered_more s.calls.items t.calls.items u.calls.items
        s.outboxes t.outboxes u.outboxes xs ys f g };
}
