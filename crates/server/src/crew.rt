//! The threads of a filer's lanes.

ghost use Rattle.std.specs.Prelude.{◌≡◌, ◌≤◌, ◌+◌, ℕ, All, true, vec_len, vec_capacity};
ghost use Rattle.depot_rule.specs.Sums.{total};
ghost use Rattle.lanes.specs.Words.{Identity};
ghost use Rattle.filer_lanes.specs.Lanes.{by_identity, seats_of, IsLaneOf};
ghost use Rattle.server.specs.Threads.{identity_for, identity_with, seats_for, seats_with};
ghost use Rattle.server.specs.Threads.{IsTaskFor, ServesFor};
ghost use Rattle.granted_calls.specs.declared.shared.Filer.{Filer};

use crate::common::Common;
use crate::mailbox::Mailbox;
use crate::socket::Socket;
use crate::task::{LaneStart, Thread, start_one};
use lanes::Lane;
use std::rt::Clock;
use std::sync::{Arc, Wait};
use std::thread::Threads;

/// What is left for the lanes of a filer, and what their threads share.
#[derive(Drop)]
pub(crate) struct Mail {
    pub(crate) boxes: Vec<Arc<Mailbox>>,
    pub(crate) common: Arc<Common>,
}

impl Mail {
    /// Wakes all lanes.
    pub(crate) fn wake(&self) {
        for mailbox in self.boxes.iter() {
            mailbox.wake();
        }
    }

    /// Tells all lanes to stop.
    pub(crate) fn stop(&self) {
        for mailbox in self.boxes.iter() {
            mailbox.stop();
        }
    }
}

/// Starts a thread for each of these lanes. Answers whether all were started.
pub(crate) fn start_all<R>(
    rt: R,
    tasks: &mut Vec<LaneStart<R>>,
    threads: &mut Vec<Thread<R>>,
) -> bool
where
    R: Threads + Wait + Clock + Copy + Drop + Send + 'static,
    requires { vec_len threads.old + vec_len tasks.old ≤ vec_capacity threads.old }
    ensures serve { (filer : Filer) → All (IsTaskFor filer) tasks.old.items
        → All (ServesFor filer) threads.old.items → All (ServesFor filer) threads.new.items }
    ensures seats { result ≡ true → total seats_with threads.new.items
        ≡ total seats_with threads.old.items + total seats_for tasks.old.items }
    ensures each { result ≡ true → (weigh : Identity → ℕ)
        → total (identity_with weigh) threads.new.items
        ≡ total (identity_with weigh) threads.old.items
        + total (identity_for weigh) tasks.old.items }
    ensures len { vec_len threads.new ≤ vec_len threads.old + vec_len tasks.old }
{
    while let Some(task) = tasks.pop() {
        match start_one(rt, task) {
            Ok(thread) => threads.push_reserved(thread),
            Err(()) => return false,
        }
    }
    true
}

/// Waits for the ends of threads, and puts the lanes that they give back behind others.
pub(crate) fn join_all<R: Threads + Drop>(
    rt: &R,
    mut threads: Vec<Thread<R>>,
    mut lanes: Vec<Lane<Socket, R>>,
) -> Vec<Lane<Socket, R>>
    requires { vec_len lanes + vec_len threads ≤ vec_capacity lanes }
    ensures of { (filer : Filer) → All (ServesFor filer) threads.items
        → All (IsLaneOf filer) lanes.items → All (IsLaneOf filer) result.items }
    ensures len { vec_len result ≡ vec_len lanes + vec_len threads }
    ensures seats { total seats_of result.items
        ≡ total seats_of lanes.items + total seats_with threads.items }
    ensures each { (weigh : Identity → ℕ) → total (by_identity weigh) result.items
        ≡ total (by_identity weigh) lanes.items + total (identity_with weigh) threads.items }
{
    while let Some(thread) = threads.pop() {
        lanes.push_reserved(thread.join(rt));
    }
    lanes
}
