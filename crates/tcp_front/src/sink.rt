//! Where what is read of a connection goes.

ghost use Rattle.std.specs.Prelude.{OnOk, OnErr};
ghost use Rattle.std.specs.Prelude.{◌≡◌, ◌≤◌, List, [], ◌∷◌, ◌++◌, Some, Bool, true, length};
ghost use Rattle.nfs_model.specs.Home.{home};
ghost use Rattle.nfs_model.specs.Tree as trees;
ghost use Rattle.rpc_msg.specs.declared.handle_form.HandleForm.{HandleForm};
ghost use Rattle.nfs_values.specs.Call.{call_of};
ghost use Rattle.nfs_values.specs.Reply.{reply_of};
ghost use Rattle.affinity.specs.Affinity.{call_node};
ghost use Rattle.engine_feed.specs.Seen.{message_of};
ghost use Rattle.engine_feed.specs.Sound.{IsAdmitted};
ghost use Rattle.rpc_msg.specs.Handles.{reply_told};
ghost use Rattle.outboxes.specs.Boxes.{addressed, most_bytes};
ghost use Rattle.outboxes.specs.Messages.{message, record_of};
ghost use Rattle.scheduler.specs.Messages.{message_at};
ghost use Rattle.tcp_front.specs.Arrivals.{Arrival, Waits, Answered};

use affinity::CallNode;
use nfs_values::{ConnectionNumber, Reply};
use rpc_msg::BoxedCall;
use scheduler::Origin;
use std::alloc::AllocError;

/// What takes the calls of a connection, to be run by workers, and the replies that need none.
pub trait RecordSink {
    // What came to it between the two, in order.
    ghost came: { Self → List Arrival → Self → Type 0 };

    // The layout by which the calls that it takes are at home.
    ghost layout: { Self → trees.Layout };

    // Whether there is room for what a record more comes to. One that waits for it always has.
    ghost room: { Self → Bool } = { λ _. true };

    /// Whether there is room for what a record more comes to. Who can wait without a thread asks
    /// before it gives on a record.
    fn has_room(&self) -> bool
        ensures { result ≡ room self.now };

    /// Admits the call of a record, which tries its home; its reply takes at most so many bytes.
    /// There is room for it, so that it is refused only for want of memory. What was read is moved
    /// from there.
    fn admit(
        &mut self,
        origin: Origin,
        asked: &mut BoxedCall,
        affinity: CallNode,
        reply_bound: usize,
    ) -> Result<(), AllocError>
        requires room { room self.old ≡ true }
        requires admitted { IsAdmitted (layout self.old)
            (message_at origin asked.old.call asked.old.caller affinity reply_bound) }
        requires at_home { home (layout self.old) (call_of asked.old.call)
            ≡ Some (call_node affinity) }
        requires short { reply_bound ≤ most_bytes }
        ensures ok { OnOk result (came self.old (Waits (message_of (message_at origin
            asked.old.call asked.old.caller affinity reply_bound)) ∷ []) self.new) }
        ensures err { OnErr result (came self.old [] self.new) }
        ensures layout { layout self.new ≡ layout self.old };

    /// Takes a reply to a record that no worker answers. It may be told in another way, and has no
    /// meaning then.
    fn answer(
        &mut self,
        connection: ConnectionNumber,
        xid: u32,
        reply: &mut Reply,
    ) -> Result<(), AllocError>
        requires { (form : HandleForm) → length (record_of (message xid
            (reply_told form (reply_of reply.old)))) ≤ most_bytes }
        ensures ok { OnOk result (came self.old
            (Answered (addressed connection.0 (message xid (reply_of reply.old))) ∷ []) self.new) }
        ensures err { OnErr result (came self.old [] self.new) }
        ensures layout { layout self.new ≡ layout self.old };

    /// Told when all records of one read were given, so that many are announced at once.
    fn read_ended(&mut self)
        ensures none { came self.old [] self.new }
        ensures layout { layout self.new ≡ layout self.old };

    ghost came_none: { (s : Self) → came s [] s };

    ghost came_more: { (s t u : Self) (xs ys : List Arrival)
        → came s xs t
        → came t ys u
        → came s (xs ++ ys) u };
}
