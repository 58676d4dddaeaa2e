//! A round of a worker's thread.

ghost use Rattle.workers.specs.Heirs.{IsHeir};
ghost use Rattle.granted_calls.specs.SharedOutboxes.{HasLentShareOf, IsOf};
ghost use Rattle.turns.specs.Words.{IsIn};
ghost use Rattle.granted_calls.specs.shared_waiting.Passes.{known};

use crate::tending::tend;
use crate::worked::Worked;
use crate::working::worker_turn;
use granted_calls::{Filer, Gate, OutboxesPass, SharedOutboxes};
use nfs_values::Moment;
use std::rt::Clock;
use std::sync::Wait;
use std::time::Duration;
use tends::{Found, Patience, Tending};
use turns::Worker;

/// How long a thread naps that found nothing to do, in milliseconds.
const NAP: u64 = 1;

/// What a thread keeps between its rounds.
#[derive(Clone, Copy)]
pub(crate) struct RoundState {
    tending: Tending,
    patience: Patience,
}

impl RoundState {
    /// Before the first round.
    pub(crate) fn new() -> RoundState {
        RoundState {
            tending: Tending::new(),
            patience: Patience::new(),
        }
    }

    /// Waits for what another has.
    fn wait<R: Clock>(&mut self, rt: &R) {
        if !self.patience.pause() {
            self.patience.give_way(rt);
        }
    }
}

/// Puts down what is in the worker's hand, if anything is.
fn put_down(filer: &Filer, worker: Worker, state: &mut RoundState) -> Worker
    requires { IsIn filer.now worker }
    ensures inside { IsIn filer.now result }
    ensures heir { IsHeir worker result }
{
    if worker.has_empty_hand() {
        return worker;
    }
    let (worker, _found) = tend(filer, worker, &mut state.tending);
    worker
}

/// One tend, where no message was there, and a nap, where that moved nothing.
fn rest<R: Clock>(rt: &R, filer: &Filer, worker: Worker, state: &mut RoundState) -> Worker
    requires { IsIn filer.now worker }
    ensures inside { IsIn filer.now result }
    ensures heir { IsHeir worker result }
{
    let (worker, found) = tend(filer, worker, &mut state.tending);
    match found {
        Found::Blocks => {}
        Found::Nothing => rt.sleep(Duration::from_millis(NAP)),
        Found::NoMemory => rt.sleep(Duration::from_millis(NAP)),
        Found::Busy => rt.sleep(Duration::from_millis(NAP)),
    }
    worker
}

/// One turn of the worker, and what follows from what it came to.
pub(crate) fn round<R: Wait + Clock, G: Gate>(
    rt: &R,
    filer: &Filer,
    outboxes: &SharedOutboxes,
    gate: &G,
    worker: Worker,
    pass: &mut OutboxesPass,
    moment: Moment,
    state: &mut RoundState,
) -> Worker
    requires inside { IsIn filer.now worker }
    requires of { IsOf outboxes.now pass.old }
    ensures inside { IsIn filer.now result }
    ensures of { IsOf outboxes.now pass.new }
    ensures heir { IsHeir worker result }
    ensures lent { HasLentShareOf (known pass.old) (known pass.new) }
{
    let (worker, worked) = worker_turn(worker, filer, outboxes, pass, rt, gate, moment);
    match worked {
        Worked::Done(_connection) => {
            state.patience = Patience::new();
            worker
        }
        Worked::Moved => put_down(filer, worker, state),
        Worked::Busy { node: _, word: _ } => {
            state.wait(rt);
            worker
        }
        Worked::Worn => {
            state.wait(rt);
            worker
        }
        Worked::Idle => rest(rt, filer, worker, state),
    }
}
