//! The end of a filer.

ghost use Rattle.std.specs.Prelude.{◌≡◌, ◌≤◌, vec_len};
ghost use Rattle.std.specs.Arc.{arc_value};
ghost use Rattle.granted_calls.specs.Filers.{layout_in, verifier_in};
ghost use Rattle.rpc_msg.specs.declared.offer.Offer.{Offer};
ghost use Rattle.filer_lanes.specs.Ends.{unfinished_in, IsEndOf};
ghost use Rattle.filer_lanes.specs.Lanes.{AllOffer, AreLanesOf};
ghost use Rattle.filer_lanes.specs.Rooms.{lanes_for};
ghost use Rattle.filer_lanes.specs.ThreadedHeadline.{ThreadedHeadline};

use crate::gathering::gather_lanes;
use crate::room::LaneBuffers;
use connections::Device;
use granted_calls::Filer;
use lanes::Lane;
use std::sync::{Arc, Wait};
use tends::{Ended, Held, Left, close, hold};

/// What is left of a filer whose lanes have ended.
#[derive(Drop)]
pub enum FilerEnd {
    /// It is closed.
    Closed(Ended),
    /// Someone else has it still, so that it can't be closed. All its parcels are granted here, and
    /// no call begins on them any more.
    Held(Held),
    /// Someone else has it still, and its ticket is worn, so that nothing is granted any more.
    Worn(Left),
}

impl FilerEnd {
    /// How many messages weren't finished.
    pub fn unfinished(&self) -> usize
        ensures { result ≡ unfinished_in self.now }
    {
        match self {
            FilerEnd::Closed(ended) => ended.kept.len() + ended.waiting.len(),
            FilerEnd::Held(held) => held.left.kept.len() + held.left.waiting.len(),
            FilerEnd::Worn(left) => left.kept.len() + left.waiting.len(),
        }
    }
}

/// Puts all lanes of a filer together, whose threads have ended, and closes it; or, where someone
/// else has it still, has all its parcels granted, unless its ticket is worn. It takes no memory.
pub fn end<D: Device + Drop, R: Wait + Drop>(
    rt: &R,
    filer: Arc<Filer>,
    lanes: Vec<Lane<D, R>>,
    room: LaneBuffers,
) -> FilerEnd
    requires lanes { AreLanesOf (arc_value filer) lanes.items }
    requires room { vec_len lanes ≤ lanes_for room }
    ensures ended { IsEndOf (arc_value filer) lanes.items result }
    ensures headline { let F = arc_value filer in (offer : Offer) → AllOffer offer lanes.items
        → ∥ ThreadedHeadline (layout_in F) (verifier_in F) offer lanes.items result ∥₁ }
{
    let left = gather_lanes(&filer, rt, lanes, room);
    match Arc::try_unwrap(filer) {
        Ok(filer) => FilerEnd::Closed(close(filer, left)),
        Err(shared) => match hold(&shared, left) {
            Ok(held) => FilerEnd::Held(held),
            Err(left) => FilerEnd::Worn(left),
        },
    }
}
