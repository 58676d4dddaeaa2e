//! What is left of a lane.

use crate::intake::Intake;
use crate::lane::Lane;
use affinity::Layout;
use connections::Device;
use granted_calls::Envelope;
use granted_calls::shared_waiting::{Pass, SharedWaiting};
use turns::Worker;

/// The worker of a lane, its queue, and the pass that only admitted.
pub struct LaneParts {
    pub worker: Worker,
    pub queue: SharedWaiting<Envelope, Layout>,
    pub pass: Pass<Envelope, Layout>,
}

impl<D: Device + Drop, R: Drop> Lane<D, R> {
    ghost use Rattle.std.specs.Prelude.{◌≡◌, []};
    ghost use Rattle.granted_calls.specs.shared_waiting.Passes.{known, IsOf};
    ghost use Rattle.turns.specs.Words.{IsAt};
    ghost use Rattle.lanes.specs.Queues.{HasBoth};
    ghost use Rattle.lanes.specs.Words.{filer_in, pass_in, queue_in, worker_in, HasStory, OwesEach};

    /// What is left of a lane, whose connections are closed with that. Its life stays known.
    pub fn into_parts(self) -> LaneParts
        ensures worker { result.worker ≡ worker_in self }
        ensures queue { result.queue ≡ queue_in self }
        ensures pass { result.pass ≡ pass_in self }
        ensures of { IsOf result.queue result.pass }
        ensures inside { IsAt (filer_in self) result.queue result.worker }
        ensures both { HasBoth result.pass result.worker }
        ensures picked { (known result.pass).picked ≡ [] }
        ensures told { ∥ HasStory D.unread D.written self ∥₁ }
        ensures owes { ∥ OwesEach self ∥₁ }
    {
        let Lane {
            index: _,
            count: _,
            offer: _,
            filer: _,
            intake,
            connections: _,
            closed: _,
        } = self;
        let Intake {
            rt: _,
            alloc: _,
            filer: _,
            queue,
            pass,
            worker,
            outboxes: _,
            waiting: _,
            most: _,
            owed: _,
            handles: _,
            leaving: _,
            at_once: _,
            ahead: _,
        } = intake;
        LaneParts {
            worker,
            queue,
            pass,
        }
    }
}
