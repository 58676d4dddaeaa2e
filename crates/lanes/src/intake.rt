//! Where the records of a lane's connections go.

ghost use Rattle.std.specs.Prelude.{◌≡◌, ◌≤◌, Some};
ghost use Rattle.granted_calls.specs.shared_waiting.Passes.{known, IsOf};
ghost use Rattle.granted_calls.specs.Filers.{layout_in, layout_known};
ghost use Rattle.turns.specs.Words.{TakesFrom};
ghost use Rattle.lanes.specs.Queues.{HasBoth, IsCounted};

use crate::lane_outboxes::LaneOutboxes;
use crate::placing::put_last;
use affinity::{CallNode, Layout};
use connections::Due;
use granted_calls::shared_waiting::{Pass, SharedWaiting};
use granted_calls::{Envelope, Filer};
use nfs_values::{Call, ConnectionNumber, Reply};
use rpc_msg::{BoxedCall, HandleForm, tell};
use scheduler::Origin;
use service::Ahead;
use statistics::{ReplyCounts, ReplyKind};
use std::alloc::{AllocError, Global};
use std::snapshot::Snapshot;
use std::sync::Wait;
use tcp_front::RecordSink;
use turns::Worker;

/// The most room of the replies that are owed to one connection while it is read.
pub(crate) const MOST_OWED: usize = 1_048_576;

/// The queue of a lane, with both passes that there are of it, and the lane's outboxes. Its own
/// pass only admits; its worker's picks.
#[derive(Drop)]
pub struct Intake<R> {
    pub(crate) rt: R,
    pub(crate) alloc: Global,
    /// Whose messages the queue has.
    pub(crate) filer: Snapshot<Filer>,
    pub(crate) queue: SharedWaiting<Envelope, Layout>,
    pub(crate) pass: Pass<Envelope, Layout>,
    pub(crate) worker: Worker,
    pub(crate) outboxes: LaneOutboxes,
    /// How many messages were admitted and not finished: those in the queue, and the one that the
    /// worker keeps, if it keeps one.
    pub(crate) waiting: usize,
    /// How many may be.
    pub(crate) most: usize,
    /// What is owed to the connection that is read.
    pub(crate) owed: Due,
    /// How the handles of its replies are told.
    pub(crate) handles: HandleForm,
    /// How many calls that may leave blocks to tend were admitted, wrapping at 2^64.
    pub(crate) leaving: u64,
    /// The replies that were made at once.
    pub(crate) at_once: ReplyCounts,
    /// The names that calls in the queue look for.
    pub(crate) ahead: Ahead,
    pub ghost of: { IsOf queue pass },
    pub ghost layout: { layout_known (known pass) ≡ Some (layout_in filer.value) },
    pub ghost takes: { TakesFrom queue worker },
    pub ghost both: { HasBoth pass worker },
    pub ghost counted: { IsCounted pass worker waiting },
    pub ghost few: { most ≤ 1024 },
}

impl<R> Intake<R> {
    ghost use Rattle.lanes.specs.Lanes.{owing_in};

    /// So much is owed to the connection that is read, and the handles of its replies are told so.
    pub(crate) fn set_owed(&mut self, owed: Due, handles: HandleForm)
        ensures { self.new ≡ owing_in owed handles self.old }
    {
        self.owed = owed;
        self.handles = handles;
    }
}

/// Whether there may be something to tend after a call. After a WRITE on a stripe there isn't,
/// unless it moves.
fn may_leave_blocks(affinity: CallNode, call: &Call) -> bool {
    !matches!(affinity, CallNode::Stripe { .. }) && call.may_move_blocks()
}

impl<R: Wait> RecordSink for Intake<R> {
    ghost use Rattle.lanes.specs.Intakes.{HasTakenIn, has_room_in};
    ghost use Rattle.lanes.specs.lemmas.Coming.{taken_none, taken_more};

    ghost came = { HasTakenIn };

    ghost layout = { λ s. layout_in s.filer.value };

    ghost room = { has_room_in };

    fn has_room(&self) -> bool {
        self.waiting < self.most && self.owed.room < MOST_OWED
    }

    fn admit(
        &mut self,
        origin: Origin,
        asked: &mut BoxedCall,
        affinity: CallNode,
        reply_bound: usize,
    ) -> Result<(), AllocError> {
        let call = &asked.get().call;
        let leaving = u64::from(may_leave_blocks(affinity, call));
        self.ahead.note(call);
        let message = self
            .outboxes
            .message(self.alloc, origin, asked, affinity, reply_bound)?;
        put_last(
            &self.queue,
            &mut self.pass,
            &mut self.worker,
            &self.rt,
            message,
        );
        self.waiting += 1;
        self.owed.add(reply_bound);
        self.leaving = self.leaving.wrapping_add(leaving);
        Ok(())
    }

    fn answer(
        &mut self,
        connection: ConnectionNumber,
        xid: u32,
        reply: &mut Reply,
    ) -> Result<(), AllocError> {
        let kind = ReplyKind::of(reply);
        tell(reply, self.handles);
        self.outboxes.put_at_once(connection, xid, reply)?;
        self.owed.add(0);
        self.at_once.count(kind);
        Ok(())
    }

    fn read_ended(&mut self) {}

    ghost came_none = { taken_none };

    ghost came_more = { taken_more };
}
