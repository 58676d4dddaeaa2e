//! The thread of a lane.

ghost use Rattle.filer_lanes.specs.Lanes.{Stays};
ghost use Rattle.server.specs.Threads.{started_with};
ghost use Rattle.std.specs.Prelude.{◌≡◌, IfOk};

use crate::serving::run_rounds;
use crate::socket::Socket;
use crate::station::Station;
use lanes::Lane;
use std::rt::Clock;
use std::snapshot::Snapshot;
use std::sync::Wait;
use std::thread;
use std::thread::{Promise, PromisedHandle, Threads};

/// A lane, and what its thread has beside it.
#[derive(Drop)]
pub(crate) struct LaneStart<R> {
    pub(crate) lane: Lane<Socket, R>,
    pub(crate) station: Station,
}

/// The lane that comes back is of the same filer and the same of its lanes, with the queue and the
/// seats that this one has.
#[derive(Drop)]
pub struct Serves<L> {
    pub lane: Snapshot<L>,
}

impl<R> Promise<Lane<Socket, R>> for Serves<Lane<Socket, R>> {
    ghost use Rattle.filer_lanes.specs.Lanes.{Stays};

    ghost kept_by = { λ p lane. Stays p.lane.value lane };
}

/// A thread that runs a lane, and gives it back.
pub(crate) type Thread<R> = PromisedHandle<Lane<Socket, R>, Serves<Lane<Socket, R>>>;

/// Starts a thread for a lane, where one can be made.
pub(crate) fn start_one<R>(rt: R, task: LaneStart<R>) -> Result<Thread<R>, ()>
where
    R: Threads + Wait + Clock + Copy + Drop + Send + 'static,
    ensures { IfOk result (λ thread. started_with thread ≡ task.lane) }
{
    let promise = Serves {
        lane: Snapshot::of(&task.lane),
    };
    let started = thread::spawn_with(
        &rt,
        promise,
        move || -> Lane<Socket, R>
            ensures { Stays task.lane result }
        {
            let task = task;
            let LaneStart { lane, station } = task;
            run_rounds(&rt, lane, station)
        },
    );
    started.map_err(|_refused| ())
}
