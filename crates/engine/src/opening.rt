//! An engine at the start.

ghost use Rattle.std.specs.Prelude.{◌≡◌, ◌≤◌, IfOk, replicate};
ghost use Rattle.nfs_model.specs.Headline.{opening_world};
ghost use Rattle.affinity.specs.Layout.{layout_of};
ghost use Rattle.engine.specs.Seen.{setup_in, world, setup_of};
ghost use Rattle.engine.specs.Workers.{idle_worker};
ghost use Rattle.engine.specs.Sound.{IsSoundEngine};

use crate::state::State;
use crate::worker::{Worker, WorkerRun};
use affinity::Layout;
use desk::{Desk, ParcelKinds};
use engine_feed::Calls;
use filer_state::laws::begins_sound;
use filer_state::{Files, opening_parcels};
use nfs_values::Verifier;
use parcels::Hand;
use rpc_msg::Offer;
use service::{BatchInHand, Service};
use slab::Slab;
use std::alloc::{AllocError, Global};

/// This many idle workers with empty hands.
fn idle(alloc: Global, count: usize) -> Result<Vec<Worker>, AllocError>
    ensures { IfOk result (λ workers. workers.items ≡ replicate count idle_worker) }
{
    let mut workers = Vec::with_capacity(alloc, count)?;
    for _done in 0..count {
        let worker = Worker {
            run: WorkerRun::Idle,
            hand: BatchInHand::new(Hand::Empty),
        };
        workers.push(worker)?;
    }
    Ok(workers)
}

/// The fields of an engine to which nothing has happened.
pub(crate) fn open(
    alloc: Global,
    offer: Offer,
    layout: Layout,
    verifier: [u8; 8],
    workers: usize,
) -> Result<State, AllocError>
    requires some { 1 ≤ workers }
    requires most { workers ≤ 64 }
    ensures setup { IfOk result (λ state.
        setup_in state ≡ setup_of offer (layout_of layout) verifier workers) }
    ensures opening { IfOk result (λ state. world state ≡ opening_world (setup_in state)) }
    ensures sound { IfOk result (λ state. IsSoundEngine state) }
{
    begins_sound::<Files>();
    let verifier = Verifier(verifier);
    let copy = layout.copied(alloc)?;
    let calls = Calls::new(alloc, copy)?;
    let idle = idle(alloc, workers)?;
    let parcels = opening_parcels(alloc, &layout, verifier)?;
    let desk = Desk::<Service, ParcelKinds>::new(alloc, layout, parcels, workers)?;
    Ok(State {
        alloc,
        offer,
        verifier,
        connections: Vec::new(alloc),
        slab: Slab::new(alloc),
        calls,
        workers: idle,
        desk,
    })
}
