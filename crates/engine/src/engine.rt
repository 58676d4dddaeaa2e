//! The engine: connections, calls on their way, workers, and the parcels that calls run on.

ghost use Rattle.std.specs.Prelude.{◌≡◌, ◌≤◌, [], ◌∷◌, map, option_map};
ghost use Rattle.std.specs.Prelude.{slice_get, IfOk};
ghost use Rattle.nfs_model.specs.World.{counts_of};
ghost use Rattle.nfs_model.specs.Headline.{opening_world};
ghost use Rattle.affinity.specs.Layout.{layout_of};
ghost use Rattle.rpc_msg.specs.Offer.{basic};
ghost use Rattle.engine_feed.specs.Seen.{entry_of};
ghost use Rattle.engine.specs.counts.Counts.{parts_told, world_counts};
ghost use Rattle.engine.specs.Engine.{output_in, stream_in};
ghost use Rattle.engine.specs.Promise.{Promise, GoesOn};
ghost use Rattle.engine.specs.Seen.{event_of, worker_seen, setup_of, world};
ghost use Rattle.engine.specs.Shown.{setup_in, Does, HasRunEvents, HasPlayed, HasItsSetup};
ghost use Rattle.engine.specs.Shown.{HasHeadline, HasOutcomes, HasHistory};
ghost use Rattle.engine.specs.Sound.{IsSoundEngine};
ghost use Rattle.engine.specs.Words as words;

use crate::beginning::begin;
use crate::carrying::{cull, fetch, put_down, survey};
use crate::connecting::{close_connection, open_connection};
use crate::connection::Connection;
use crate::counting::{carried, count_cull, count_put_down, stock_of};
use crate::counts::{PartCounts, VolumeCounts, opening_counts};
use crate::event::{Done, Event, Refusal};
use crate::feeding::feed;
use crate::finishing::finish;
use crate::opening::open;
use crate::state::State;
use crate::worker::Worker;
use crate::working::work;
use affinity::Layout;
use engine_feed::FinishedCall;
use engine_feed::laws::{codecs_are_scans, streams_are_served};
use filer_state::laws::parts_partition;
use nfs_laws::laws::{events_keep_headline, opening_meets_headline};
use nfs_values::VolumeNumber;
use rpc_msg::Offer;
use std::alloc::{AllocError, Global};
use std::marker::Model;

/// Takes one event.
fn dispatch(
    state: &mut State,
    counts: &mut Vec<VolumeCounts>,
    event: Event<'_>,
) -> Result<Done, Refusal>
    requires whole { words.IsWhole state.old }
    requires counted { counts.old.items ≡ world_counts (world state.old) }
    ensures events { words.DoesEvent state.old (event_of event.entry) result state.new }
    ensures setup { words.HasItsSetup state.old state.new }
    ensures sound { IsSoundEngine state.new }
    ensures counted { counts.new.items ≡ world_counts (world state.new) }
{
    parts_partition();
    match event {
        Event::Open => open_connection(state),
        Event::Feed { connection, bytes } => feed(state, connection.0, bytes),
        Event::Close { connection } => close_connection(state, connection.0),
        Event::Begin {
            worker,
            place,
            moment,
        } => begin(state, worker.0, place, moment),
        Event::Work { worker } => work(state, counts, worker.0),
        Event::Finish { worker } => finish(state, worker.0),
        Event::Fetch {
            worker,
            volume,
            range,
        } => fetch(state, worker.0, volume, range),
        Event::Cull { worker, volume } => {
            let answer = cull(state, worker.0, volume);
            count_cull(counts, volume.0, &answer);
            answer
        }
        Event::PutDown { worker } => {
            let stock = stock_of(&state.workers, worker.0);
            let answer = put_down(state, worker.0);
            count_put_down(counts, stock, &answer);
            answer
        }
        Event::Survey { worker, volume } => survey(state, worker.0, volume),
    }
}

/// A server of connections and their calls, driven by events, with 1 to 64 workers. At most 64
/// connections are open.
pub struct Engine {
    state: State,
    /// By volume.
    counts: Vec<VolumeCounts>,
}

// By hand, so that a crate that owns an engine has no proof of the drop of each of its parts.
impl Drop for Engine {
    fn drop(self) {
        let Engine {
            state: _,
            counts: _,
        } = self;
    }
}

impl Model for Engine {
    ghost use Rattle.engine.specs.Shown.{Shown};
    ghost use Rattle.std.specs.Coded.{codes};
    ghost use Rattle.engine.specs.Codes.{coded_nodes, coded_filled};
    ghost use Rattle.engine.specs.Codes.{coded_range, coded_stripe, coded_logical};

    ghost Value = { Shown };

    ghost coded = { Prim.hlevel (
      codes,
      coded_nodes,
      coded_filled,
      coded_range,
      coded_stripe,
      coded_logical,
    ) };

    ghost use Rattle.engine.specs.Shown.{shown};
    ghost use Rattle.engine.specs.Counted.{IsCountedWhole};

    ghost view = { λ e. shown e.state };

    ghost invariant = { λ e. IsCountedWhole e.state e.counts.items };
}

impl Engine {
    /// An engine to which nothing has happened, which reads by what is offered, with this many
    /// workers, from 1 to 64.
    pub fn offering(
        alloc: Global,
        offer: Offer,
        layout: Layout,
        verifier: [u8; 8],
        workers: usize,
    ) -> Result<Engine, AllocError>
        requires workers { 1 ≤ workers }
        requires most { workers ≤ 64 }
        ensures setup { IfOk result (λ engine.
            setup_in engine ≡ setup_of offer (layout_of layout) verifier workers) }
        ensures opening { IfOk result (λ engine.
            engine.world ≡ opening_world (setup_in engine)) }
        ensures headline { IfOk result (λ engine. HasHeadline engine) }
        ensures outcomes { IfOk result (λ engine. HasOutcomes engine) }
        ensures history { IfOk result (λ engine. HasHistory engine) }
        ensures promise { IfOk result (λ engine. Promise [] engine) }
    {
        streams_are_served();
        opening_meets_headline();
        let counts = opening_counts(alloc, &layout)?;
        let state = open(alloc, offer, layout, verifier, workers)?;
        Ok(Engine { state, counts })
    }

    /// An engine to which nothing has happened, with the basic offer.
    pub fn new(
        alloc: Global,
        layout: Layout,
        verifier: [u8; 8],
        workers: usize,
    ) -> Result<Engine, AllocError>
        requires workers { 1 ≤ workers }
        requires most { workers ≤ 64 }
        ensures setup { IfOk result (λ engine.
            setup_in engine ≡ setup_of basic (layout_of layout) verifier workers) }
        ensures opening { IfOk result (λ engine.
            engine.world ≡ opening_world (setup_in engine)) }
        ensures headline { IfOk result (λ engine. HasHeadline engine) }
        ensures outcomes { IfOk result (λ engine. HasOutcomes engine) }
        ensures history { IfOk result (λ engine. HasHistory engine) }
        ensures promise { IfOk result (λ engine. Promise [] engine) }
    {
        Engine::offering(alloc, Offer::basic(), layout, verifier, workers)
    }

    /// Takes one event. A refused one changes nothing.
    pub fn step(&mut self, event: Event<'_>) -> Result<Done, Refusal>
        ensures events { Does self.old (event_of event.entry) result self.new }
        ensures setup { HasItsSetup self.old self.new }
        ensures headline { HasHeadline self.new }
        ensures outcomes { HasOutcomes self.new }
        ensures history { HasHistory self.new }
        ensures promise { GoesOn self.old (event_of event.entry ∷ []) self.new }
    {
        codecs_are_scans();
        streams_are_served();
        parts_partition();
        events_keep_headline();
        dispatch(&mut self.state, &mut self.counts, event)
    }

    /// Takes events, and answers how many were refused.
    pub fn run(&mut self, events: &[Event<'_>]) -> usize
        ensures runs { HasRunEvents self.old events.now result self.new }
        ensures setup { HasItsSetup self.old self.new }
        ensures headline { HasHeadline self.new }
        ensures outcomes { HasOutcomes self.new }
        ensures history { HasHistory self.new }
        ensures promise { GoesOn self.old (map event_of events.now) self.new }
    {
        let _ = &self.state;
        let mut refused = 0;
        for event in events {
            if self.step(*event).is_err() {
                refused += 1;
            }
        }
        refused
    }

    /// A new engine after these events.
    pub fn play(
        alloc: Global,
        layout: Layout,
        verifier: [u8; 8],
        workers: usize,
        events: &[Event<'_>],
    ) -> Result<Engine, AllocError>
        requires workers { 1 ≤ workers }
        requires most { workers ≤ 64 }
        ensures setup { IfOk result (λ engine.
            setup_in engine ≡ setup_of basic (layout_of layout) verifier workers) }
        ensures runs { IfOk result (λ engine. HasPlayed events.now engine) }
        ensures headline { IfOk result (λ engine. HasHeadline engine) }
        ensures outcomes { IfOk result (λ engine. HasOutcomes engine) }
        ensures history { IfOk result (λ engine. HasHistory engine) }
        ensures promise { IfOk result (λ engine. Promise (map event_of events.now) engine) }
    {
        let mut engine = Engine::new(alloc, layout, verifier, workers)?;
        engine.run(events);
        Ok(engine)
    }

    /// All bytes that were written to a connection; none where there is no such connection.
    pub fn output(&self, connection: usize) -> &[u8]
        ensures { result.now ≡ output_in (slice_get self.now.world.connections connection) }
    {
        match self.state.connections.get(connection) {
            Some(Connection::Open(key)) => match self.state.slab.get(*key) {
                Some(open) => open.output(),
                None => &[],
            },
            Some(Connection::Closed(closed)) => &closed.output,
            None => &[],
        }
    }

    /// All bytes that were taken from a connection; none where there is no such connection.
    pub fn stream(&self, connection: usize) -> &[u8]
        ensures { result.now ≡ stream_in (slice_get self.now.world.connections connection) }
    {
        match self.state.connections.get(connection) {
            Some(Connection::Open(key)) => match self.state.slab.get(*key) {
                Some(open) => open.stream(),
                None => &[],
            },
            Some(Connection::Closed(closed)) => &closed.stream,
            None => &[],
        }
    }

    /// How many block numbers of a volume are where; nothing where there is no such volume. It
    /// takes the same time however much is stored.
    pub fn parts(&self, volume: VolumeNumber) -> Option<PartCounts>
        ensures { option_map parts_told result ≡ counts_of self.now.world volume.0 }
    {
        match self.counts.get(volume.0 as usize) {
            Some(counts) => Some(counts.with_hands(carried(&self.state.workers, volume.0))),
            None => None,
        }
    }

    /// What each worker runs and carries.
    pub fn running(&self) -> &[Worker]
        ensures { map worker_seen result.now ≡ self.now.world.workers }
    {
        &self.state.workers
    }

    /// The calls that are finished, in finishing order.
    pub fn finished(&self) -> &[FinishedCall]
        ensures { map entry_of result.now ≡ self.now.world.finished }
    {
        self.state.calls.finished()
    }
}
