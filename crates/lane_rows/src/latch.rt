//! Two calls of two lanes that don't exclude each other, one in the midst of the other.

use crate::laned::ask;
use crate::opening::{MemoryLane, open_lanes};
use crate::texts::{create, getattr, read};
use granted_calls::{Chained, Gate, Place, Stage, Wanted};
use nfs_values::Moment;
use std::process::Abort;
use std::sync::Wait;
use std::sync::atomic::{AtomicBool, Ordering};
use std::thread;
use std::thread::Threads;

/// The xid of the READ that is held.
const HELD: u32 = 7;

/// The xid of the GETATTR that goes on meanwhile.
const BESIDE: u32 = 8;

/// More turns than two calls take.
const MANY: usize = 10_000;

/// How often it is looked whether something has come.
const LOOKS: usize = 10_000_000;

/// What was seen of the two calls. It holds one after its begin until the other has ended.
#[derive(Drop)]
struct Latch {
    held_begun: AtomicBool,
    beside_ended: AtomicBool,
    was_beside: AtomicBool,
}

/// Looks until it is set, so often. Whether it was.
fn comes(flag: &AtomicBool) -> bool {
    for _ in 0..LOOKS {
        if flag.load(Ordering::SeqCst) {
            return true;
        }
        thread::yield_now();
    }
    false
}

impl Gate for Latch {
    fn pass(&self, place: Place) {
        if place.xid == BESIDE && place.stage == Stage::Ended {
            self.beside_ended.store(true, Ordering::SeqCst);
        }
        if place.xid == HELD && place.stage == Stage::Begun {
            self.held_begun.store(true, Ordering::SeqCst);
            if comes(&self.beside_ended) {
                self.was_beside.store(true, Ordering::SeqCst);
            }
        }
    }
}

/// Makes turns of a lane until no message waits. How many calls were finished.
fn run_all<R: Wait>(lane: &mut MemoryLane<R>, latch: &Latch) -> usize {
    let mut done: usize = 0;
    for _ in 0..MANY {
        let before = lane.waiting();
        let chained = lane.turns(latch, &Wanted::new(), Moment::START, 3);
        done = done.saturating_add(before.saturating_sub(lane.waiting()));
        match chained {
            Chained::Done => {}
            Chained::Idle => return done,
            Chained::Moved | Chained::Busy { node: _, word: _ } | Chained::Worn => {
                thread::yield_now();
            }
        }
    }
    done
}

/// Reads a file of volume 0 on one lane, and in the midst of that asks on the other for the
/// attributes of volume 1's root. Whether the latter ended in the midst.
fn run<R>(rt: R) -> bool
where
    R: Abort + AllocGlobal + Threads + Wait + Copy + Drop + Send + Sync,
{
    let latch = Latch {
        held_begun: AtomicBool::new(false),
        beside_ended: AtomicBool::new(false),
        was_beside: AtomicBool::new(false),
    };
    let (mut first, mut second) = open_lanes(rt);
    ask(&rt, &mut first, &[&create(6, 0x6161_0000)], usize::MAX);
    assert!(&rt; run_all(&mut first, &latch) == 1);
    ask(&rt, &mut first, &[&read(HELD)], usize::MAX);
    ask(&rt, &mut second, &[&getattr(BESIDE)], usize::MAX);
    let latch = &latch;
    let done = thread::join(
        &rt,
        move || -> usize { run_all(&mut first, latch) },
        move || -> usize {
            comes(&latch.held_begun);
            run_all(&mut second, latch)
        },
    );
    assert!(&rt; done == (1, 1));
    latch.was_beside.load(Ordering::SeqCst)
}

#[test]
fn a_call_ends_in_the_midst_of_another_lanes(rt: HostRuntime) {
    assert!(&rt; run(rt));
}
