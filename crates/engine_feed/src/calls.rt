//! Calls on their way: waiting, running and finished.

use crate::connection::OpenConnection;
use crate::message::FinishedCall;
use crate::moving::{begin, leave, put_back, reply_to};
use crate::state::CallsState;
use affinity::{CallNode, Layout};
use nfs_values::{Call, Moment, Reply};
use scheduler::{Message, NoSuchCall, Waiting};
use std::alloc::{AllocError, Global};
use std::marker::Model;

/// Calls of all connections: at most 1,024 that wait or run, and those that are finished.
pub struct Calls {
    pub(crate) state: CallsState,
}

// By hand, so that crates above have no proof of the drop of each of its parts.
impl Drop for Calls {
    fn drop(self) {
        let Calls { state: _ } = self;
    }
}

impl Model for Calls {
    ghost use Rattle.engine_feed.specs.declared.state.CallsState.{CallsState};

    ghost Value = { CallsState };

    ghost use Rattle.engine_feed.specs.Sound.{AreSound};

    ghost view = { λ c. c.state };

    ghost invariant = { λ c. AreSound c.state };
}

impl Calls {
    ghost use Rattle.std.specs.Prelude.{◌≡◌, ◌+◌, ◌<◌, ◌≤◌, ◌↔◌, length, map, option_map};
    ghost use Rattle.std.specs.Prelude.{IfOk, IfSome, IsErr, OnErr};
    ghost use Rattle.std.specs.List.{slice_get};
    ghost use Rattle.nfs_model.specs.World.{with_output};
    ghost use Rattle.nfs_values.specs.Moment.{moment_of};
    ghost use Rattle.nfs_values.specs.Reply.{reply_of};
    ghost use Rattle.affinity.specs.Affinity.{call_node};
    ghost use Rattle.affinity.specs.Layout.{layout_of};
    ghost use Rattle.affinity.specs.Tree.{IsNode};
    ghost use Rattle.engine_feed.specs.Codec.{reply_record};
    ghost use Rattle.engine_feed.specs.Seen.{connection_of, owed_by, entry_of, finished_message};
    ghost use Rattle.engine_feed.specs.Seen.{layout_in, messages_of, finished_of, running_count};
    ghost use Rattle.engine_feed.specs.Sound.{IsAdmitted};
    ghost use Rattle.engine_feed.specs.Words.{AreNew, HasBegun, HasPutBack, HasLeft};
    ghost use Rattle.engine_feed.specs.Words.{Finishes, FinishesUnseen};

    /// No calls yet.
    pub fn new(alloc: Global, layout: Layout) -> Result<Calls, AllocError>
        ensures { IfOk result (AreNew (layout_of layout)) }
    {
        Ok(Calls {
            state: CallsState {
                layout,
                waiting: Waiting::new(alloc)?,
                running: 0,
                finished: Vec::new(alloc),
            },
        })
    }

    /// The layout that calls are placed by.
    pub fn layout(&self) -> &Layout
        ensures { layout_of result.now ≡ layout_in self.now }
    {
        &self.state.layout
    }

    /// The calls that are finished, in finishing order.
    pub fn finished(&self) -> &[FinishedCall]
        ensures { map entry_of result.now ≡ finished_of self.now }
    {
        &self.state.finished
    }

    /// What the message at a place of the list tries.
    pub fn affinity_at(&self, place: usize) -> Option<CallNode>
        ensures there { result ≡ option_map (λ m. m.affinity)
            (slice_get (messages_of self.now) place) }
        ensures node { IfSome result (λ a. IsNode (layout_in self.now) (call_node a)) }
    {
        match self.state.waiting.get(place) {
            Some(message) => Some(message.affinity),
            None => None,
        }
    }

    /// Takes the message at a place of the list, which runs from now on.
    pub fn begin(&mut self, place: usize) -> Result<Message<Call>, NoSuchCall>
        ensures begun { IfOk result (λ m. HasBegun self.old place m self.new) }
        ensures none { IsErr result ↔ (length (messages_of self.old) ≤ place) }
        ensures err { OnErr result (self.new ≡ self.old) }
    {
        begin(&mut self.state, place)
    }

    /// Lets a message that ran wait again, after all others.
    pub fn put_back(&mut self, message: Message<Call>)
        requires runs { 0 < running_count self.old }
        requires admitted { IsAdmitted (layout_in self.old) message }
        ensures { HasPutBack self.old message self.new }
    {
        put_back(&mut self.state, message);
    }

    /// Finishes a message that ran: its reply is written on its connection, in the room that was
    /// kept for it. It answers how many bytes were written.
    pub fn finish(
        &mut self,
        message: Message<Call>,
        moment: Moment,
        on: &mut OpenConnection,
        reply: &Reply,
        starved: bool,
    ) -> usize
        requires runs { 0 < running_count self.old }
        requires admitted { IsAdmitted (layout_in self.old) message }
        requires owed { message.room ≤ owed_by on.old }
        requires fits { length (reply_record message.origin.xid (reply_of reply.now))
            ≤ message.room }
        ensures finishes { Finishes self.old on.old
            (finished_message message (moment_of moment) starved) (reply_of reply.now)
            self.new on.new }
        ensures left { HasLeft self.old (finished_message message (moment_of moment) starved)
            self.new }
        ensures written { connection_of on.new
            ≡ with_output (reply_record message.origin.xid (reply_of reply.now))
            (connection_of on.old) }
        ensures owed { owed_by on.old ≡ owed_by on.new + message.room }
        ensures count { result ≡ length (reply_record message.origin.xid (reply_of reply.now)) }
    {
        let count = reply_to(&mut on.state, message.origin.xid, message.room, reply);
        leave(&mut self.state, message, moment, starved);
        count
    }

    /// Finishes a message that ran, whose connection isn't open.
    pub fn finish_unseen(&mut self, message: Message<Call>, moment: Moment, starved: bool)
        requires runs { 0 < running_count self.old }
        ensures finishes { FinishesUnseen self.old
            (finished_message message (moment_of moment) starved) self.new }
        ensures left { HasLeft self.old (finished_message message (moment_of moment) starved)
            self.new }
    {
        leave(&mut self.state, message, moment, starved);
    }
}
