//! Two calls that don't exclude each other, one in the midst of the other.

use crate::calls::{Ask, ROOT};
use crate::running::{LOOKS, Running, start};
use granted_calls::{Gate, Place, Stage};
use std::process::Abort;
use std::rt::Clock;
use std::sync::atomic::{AtomicBool, Ordering};
use std::sync::{Arc, Wait};
use std::thread;
use std::thread::Threads;

/// The xid of the CREATE that comes before.
const MADE: u32 = 6;

/// The xid of the READ that is held.
const HELD: u32 = 7;

/// The xid of the GETATTR that goes on meanwhile.
const BESIDE: u32 = 8;

/// What was seen of the two calls.
#[derive(Drop)]
struct Seen {
    held_begun: AtomicBool,
    beside_ended: AtomicBool,
    was_beside: AtomicBool,
}

/// Holds one call after its begin until the other has ended.
#[derive(Clone, Drop)]
struct Latch {
    seen: Arc<Seen>,
}

/// Looks until it is set, so often. Whether it was.
pub(crate) fn comes(flag: &AtomicBool) -> bool {
    for _ in 0..LOOKS {
        if flag.load(Ordering::SeqCst) {
            return true;
        }
        thread::yield_now();
    }
    false
}

impl Gate for Latch {
    fn pass(&self, place: Place) {
        if place.xid == BESIDE && place.stage == Stage::Ended {
            self.seen.beside_ended.store(true, Ordering::SeqCst);
        }
        if place.xid == HELD && place.stage == Stage::Begun {
            self.seen.held_begun.store(true, Ordering::SeqCst);
            if comes(&self.seen.beside_ended) {
                self.seen.was_beside.store(true, Ordering::SeqCst);
            }
        }
    }
}

/// Waits for a reply, which has to say that its call was carried out (RFC 5531 section 9) and came
/// to NFS3_OK (RFC 1813 section 2.6).
fn is_served<R: Abort + Wait>(rt: &R, running: &mut Running) {
    let record = running.awaited(rt);
    assert!(rt; record.as_slice().get(24..32) == Some(&[0; 8][..]));
}

/// Reads a file of volume 0 with one of two workers, and in the midst of that asks for the
/// attributes of volume 1's root. How many messages were left.
fn run<R>(rt: R) -> usize
where
    R: Abort + AllocGlobal + Threads + Wait + Clock + Copy + Drop + Send + 'static,
{
    let seen = Seen {
        held_begun: AtomicBool::new(false),
        beside_ended: AtomicBool::new(false),
        was_beside: AtomicBool::new(false),
    };
    let seen = Arc::new(rt.alloc(), seen).expect(&rt, "no memory");
    let latch = Latch { seen };
    let mut running = start(rt, &latch, 2);
    running.put(&rt, MADE, Ask::Create(0, 1));
    is_served(&rt, &mut running);
    running.put(&rt, HELD, Ask::Read(0, 2, 0, 4096));
    comes(&latch.seen.held_begun);
    running.put(&rt, BESIDE, Ask::Attributes(1, ROOT));
    is_served(&rt, &mut running);
    is_served(&rt, &mut running);
    assert!(&rt; latch.seen.was_beside.load(Ordering::SeqCst));
    let (ended, _mail) = running.stop(&rt);
    ended.kept.len() + ended.waiting.len()
}

#[test]
fn a_call_ends_in_the_midst_of_another(rt: HostRuntime) {
    assert_eq!(&rt; run(rt), 0);
}
