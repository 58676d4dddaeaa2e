//! A lane that begins, and connections that are opened.

use crate::intake::Intake;
use crate::lane::Lane;
use crate::lane_outboxes::{LaneOutboxes, open_in};
use affinity::Layout;
use connections::{Device, Due};
use granted_calls::shared_waiting::{Pass, SharedWaiting};
use granted_calls::{Envelope, Filer};
use histories::History;
use outboxes::Outboxes;
use rpc_msg::Offer;
use scheduler::MOST_WAITING;
use service::Ahead;
use slab::Slab;
use statistics::ReplyCounts;
use std::alloc::Global;
use std::snapshot::Snapshot;
use std::sync::Arc;
use tcp_front::Peer;
use turns::Worker;

impl<D: Device, R> Lane<D, R> {
    ghost use Rattle.std.specs.Prelude.{◌≡◌, ◌<◌, ◌≤◌, [], Some};
    ghost use Rattle.std.specs.Arc.{arc_value};
    ghost use Rattle.outboxes.specs.Boxes.{AreOfLane};
    ghost use Rattle.granted_calls.specs.shared_waiting.Passes.{known, IsOf};
    ghost use Rattle.granted_calls.specs.Filers.{layout_in, layout_known};
    ghost use Rattle.turns.specs.Words.{entries_in, IsAt};
    ghost use Rattle.connections.specs.Keyed.{Opens};
    ghost use Rattle.lanes.specs.Queues.{HasBoth};
    ghost use Rattle.lanes.specs.Words.{boxes_in, closed_in, connections_in, filer_in};
    ghost use Rattle.lanes.specs.Intakes.{share_of};
    ghost use Rattle.lanes.specs.Words.{identity_in, pass_in, share_in, worker_in};

    /// One of this many lanes of a filer, which reads records by what is offered, with a queue of
    /// its own: a pass that will only admit, and a worker with the other pass. Neither has done
    /// anything. It may have its share of messages, and at most this many connections will be open.
    pub fn new(
        rt: R,
        alloc: Global,
        filer: Arc<Filer>,
        offer: Offer,
        queue: SharedWaiting<Envelope, Layout>,
        pass: Pass<Envelope, Layout>,
        worker: Worker,
        lane: usize,
        lanes: usize,
        most_open: usize,
    ) -> Lane<D, R>
        requires lane { lane < lanes }
        requires few { lanes ≤ 1024 }
        requires of { IsOf queue pass }
        requires layout { layout_known (known pass) ≡ Some (layout_in (arc_value filer)) }
        requires inside { IsAt (arc_value filer) queue worker }
        requires both { HasBoth pass worker }
        requires nothing { ((known pass).put ≡ []) × ((known pass).picked ≡ [])
            × (entries_in worker ≡ []) }
        ensures filer { filer_in result ≡ arc_value filer }
        ensures worker { worker_in result ≡ worker }
        ensures identity { identity_in result ≡ ((lane, lanes), offer, queue) }
        ensures numbers { AreOfLane lane lanes (boxes_in result) }
        ensures open { (boxes_in result).most ≡ most_open }
        ensures closed { closed_in result ≡ [] }
        ensures share { share_in result ≡ share_of lanes }
    {
        Lane {
            index: lane,
            count: lanes,
            offer,
            intake: Intake {
                rt,
                alloc,
                filer: Snapshot::of(&*filer),
                queue,
                pass,
                worker,
                outboxes: LaneOutboxes::new(
                    alloc,
                    Outboxes::with_room_for(alloc, most_open, lane, lanes),
                ),
                waiting: 0,
                most: MOST_WAITING / lanes,
                owed: Due::nothing(),
                handles: offer.handles(),
                leaving: 0,
                at_once: ReplyCounts::new(),
                ahead: Ahead::new(alloc),
            },
            filer,
            connections: Slab::new(alloc),
            closed: History::new(),
        }
    }

    /// The key that the next connection gets.
    pub fn next_key(&self) -> usize
        ensures { result ≡ (connections_in self.now).vacant_key }
    {
        self.connections.vacant_key()
    }

    /// Opens a connection to a peer over a device, under the next key. The device comes back where
    /// there is no memory, or where as many connections are open as may be.
    pub fn open(&mut self, device: D, peer: Peer) -> Result<usize, D>
        ensures opens { Opens (connections_in self.old) (boxes_in self.old) device peer
            result (connections_in self.new) (boxes_in self.new) }
        ensures pass { known (pass_in self.new) ≡ known (pass_in self.old) }
        ensures closed { closed_in self.new ≡ closed_in self.old }
        ensures worker { worker_in self.new ≡ worker_in self.old }
        ensures filer { filer_in self.new ≡ filer_in self.old }
        ensures identity { identity_in self.new ≡ identity_in self.old }
    {
        open_in(
            &mut self.connections,
            self.intake.alloc,
            &mut self.intake.outboxes,
            device,
            peer,
        )
    }
}
