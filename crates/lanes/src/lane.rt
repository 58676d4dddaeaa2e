//! Lanes.

ghost use Rattle.std.specs.Prelude.{◌≡◌, []};
ghost use Rattle.slab.specs.Slab.{get};
ghost use Rattle.std.specs.Arc.{arc_value};
ghost use Rattle.granted_calls.specs.shared_waiting.Passes.{known};
ghost use Rattle.granted_calls.specs.Filers.{layout_in};
ghost use Rattle.turns.specs.Words.{entries_in, IsAt};
ghost use Rattle.lanes.specs.Intakes.{share_of};
ghost use Rattle.lanes.specs.Owed.{AreOwed};
ghost use Rattle.lanes.specs.Story.{Story};

mod closing;
mod looking;
mod opening;
mod parting;
mod reading;
mod tending;
mod turning;
mod writing;

use crate::intake::Intake;
use connections::{Connection, Device};
use granted_calls::Filer;
use histories::History;
pub use parting::LaneParts;
use rpc_msg::Offer;
use slab::Slab;
use std::sync::Arc;

/// One thread's connections, with the queue of their calls, the worker that runs these, and the
/// outboxes of the replies. Its type says what it has done in its whole life: what came of the
/// bytes of each connection that it ever had, what ended, and which bytes went out.
#[derive(Drop)]
pub struct Lane<D: Device, R> {
    /// Which of the filer's lanes it is, from 0, and how many there are.
    pub(crate) index: usize,
    pub(crate) count: usize,
    /// By what is offered the records of its connections are read.
    pub(crate) offer: Offer,
    pub(crate) filer: Arc<Filer>,
    pub(crate) intake: Intake<R>,
    pub(crate) connections: Slab<Connection<D>>,
    /// The connections that were closed, each as it was then. No bytes are kept of them.
    pub(crate) closed: History<Connection<D>>,
    pub ghost filer_is: { intake.filer.value ≡ arc_value filer },
    pub ghost inside: { ∥ IsAt (arc_value filer) intake.queue intake.worker ∥₁ },
    pub ghost picked: { (known intake.pass).picked ≡ [] },
    pub ghost share: { intake.most ≡ share_of count },
    pub ghost story: { ∥ Story D.unread D.written (layout_in (arc_value filer)) offer index
        count (entries_in intake.worker) (known intake.pass).put intake.outboxes
        (get connections) closed.items ∥₁ },
    pub ghost owes: { ∥ AreOwed (entries_in intake.worker) (known intake.pass).put
        intake.outboxes (get connections) ∥₁ },
}
