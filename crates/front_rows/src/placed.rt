//! A sink that has room for some records alone.

ghost use Rattle.std.specs.Prelude.{◌≡◌};
ghost use Rattle.affinity.specs.Layout.{layout_of};
ghost use Rattle.front_rows.specs.Gathering.{HasGathered, gathered_none, gathered_more};

use crate::gathered::Gathered;
use affinity::CallNode;
use nfs_values::{ConnectionNumber, Reply};
use rpc_msg::BoxedCall;
use scheduler::Origin;
use std::alloc::AllocError;
use tcp_front::RecordSink;

/// A sink, and how many records it has room for.
#[derive(Drop)]
pub struct Placed {
    pub gathered: Gathered,
    pub places: usize,
    pub has_place: bool,
}

impl Placed {
    /// A place less.
    fn fill(&mut self)
        ensures { self.new.gathered ≡ self.old.gathered }
    {
        self.places = self.places.saturating_sub(1);
        self.has_place = self.places > 0;
    }

    /// This many places.
    pub fn empty(&mut self, places: usize)
        ensures { self.new.gathered ≡ self.old.gathered }
    {
        self.places = places;
        self.has_place = places > 0;
    }
}

impl RecordSink for Placed {
    ghost came = { λ s xs t. HasGathered s.gathered.calls.items s.gathered.outboxes xs
        t.gathered.calls.items t.gathered.outboxes };

    ghost layout = { λ s. layout_of s.gathered.layout };

    ghost room = { λ s. s.has_place };

    fn has_room(&self) -> bool {
        self.has_place
    }

    fn admit(
        &mut self,
        origin: Origin,
        asked: &mut BoxedCall,
        affinity: CallNode,
        reply_bound: usize,
    ) -> Result<(), AllocError> {
        self.gathered.admit(origin, asked, affinity, reply_bound)?;
        self.fill();
        Ok(())
    }

    fn answer(
        &mut self,
        connection: ConnectionNumber,
        xid: u32,
        reply: &mut Reply,
    ) -> Result<(), AllocError> {
        self.gathered.answer(connection, xid, reply)?;
        self.fill();
        Ok(())
    }

    fn read_ended(&mut self) {
        self.gathered.read_ended();
    }

    ghost came_none = { λ s. gathered_none s.gathered.calls.items s.gathered.outboxes };

    ghost came_more = { λ s t u xs ys f g. gathered_more s.gathered.calls.items
        t.gathered.calls.items u.gathered.calls.items s.gathered.outboxes t.gathered.outboxes
        u.gathered.outboxes xs ys f g };
}
