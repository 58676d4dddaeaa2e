//! What threads leave for the clerk.

use crate::event::Event;
use crossbeam_queue::ArrayQueue;
use mio::{Registry, Token, Waker};
use std::alloc::Global;
use std::io;
use std::sync::Wait;
use std::sync::atomic::{AtomicBool, AtomicU64, Ordering};

/// The most events that wait for the clerk.
pub(crate) const MOST_EVENTS: usize = 1_024;

/// The token of the waker.
const WAKER: Token = Token(0);

/// What threads leave for the clerk, which is woken for it. Nobody waits for the clerk: an event
/// that finds no room is dropped, and counted.
pub struct Journal {
    events: ArrayQueue<Event>,
    /// Whether each connection is told of.
    is_log: bool,
    /// How many events found no room since that was told.
    dropped: AtomicU64,
    /// How many connections found no place since that was told.
    turned_away: AtomicU64,
    /// How many connections couldn't be accepted since that was told, and the system's number of
    /// the last error, or 0.
    failed: AtomicU64,
    error: AtomicU64,
    /// How many calls were refused since that was told.
    refused: AtomicU64,
    /// Whether the clerk was woken and hasn't looked since.
    is_woken: AtomicBool,
    has_ended: AtomicBool,
    waker: Waker,
}

// By hand, so that crates above have no proof of the drop of each of its parts.
impl Drop for Journal {
    fn drop(self) {
        let Journal {
            events: _,
            is_log: _,
            dropped: _,
            turned_away: _,
            failed: _,
            error: _,
            refused: _,
            is_woken: _,
            has_ended: _,
            waker: _,
        } = self;
    }
}

impl Journal {
    /// An empty journal of the clerk that waits by this registry's poll: each connection is told
    /// of, or only what goes wrong.
    pub(crate) fn new(alloc: Global, registry: &Registry, is_log: bool) -> io::Result<Journal> {
        Ok(Journal {
            events: ArrayQueue::new(alloc, MOST_EVENTS)?,
            is_log,
            dropped: AtomicU64::new(0),
            turned_away: AtomicU64::new(0),
            failed: AtomicU64::new(0),
            error: AtomicU64::new(0),
            refused: AtomicU64::new(0),
            is_woken: AtomicBool::new(false),
            has_ended: AtomicBool::new(false),
            waker: Waker::new(registry, WAKER)?,
        })
    }

    /// Wakes the clerk, if it wasn't woken since it last looked.
    fn wake(&self) {
        if !self.is_woken.swap(true, Ordering::SeqCst) {
            let _woken = self.waker.wake();
        }
    }

    /// Leaves an event, where each connection is told of.
    pub fn note<R: Wait>(&self, rt: &R, event: Event) {
        if !self.is_log {
            return;
        }
        if self.events.push(rt, event).is_err() {
            self.dropped.fetch_add(1, Ordering::SeqCst);
        }
        self.wake();
    }

    /// A connection was closed at once, since as many are open as may be.
    pub fn turn_away(&self) {
        self.turned_away.fetch_add(1, Ordering::SeqCst);
        self.wake();
    }

    /// A connection couldn't be accepted.
    pub fn fail(&self, error: &io::Error) {
        let code = error.raw_os_error().unwrap_or(0);
        self.error
            .store(u64::try_from(code).unwrap_or(0), Ordering::SeqCst);
        self.failed.fetch_add(1, Ordering::SeqCst);
        self.wake();
    }

    /// Calls were refused, where that is told.
    pub fn refuse(&self, calls: u64) {
        if self.is_log {
            self.refused.fetch_add(calls, Ordering::SeqCst);
            self.wake();
        }
    }

    /// Tells the clerk that nothing more is left.
    pub fn end(&self) {
        self.has_ended.store(true, Ordering::SeqCst);
        self.wake();
    }

    /// Whether nothing more is left.
    pub(crate) fn has_ended(&self) -> bool {
        self.has_ended.load(Ordering::SeqCst)
    }

    /// The clerk looks: from now on it is woken again.
    pub(crate) fn look(&self) {
        self.is_woken.store(false, Ordering::SeqCst);
    }

    /// The event that was left first.
    pub(crate) fn take<R: Wait>(&self, rt: &R) -> Option<Event> {
        self.events.pop(rt)
    }

    /// How many events were dropped since this was asked.
    pub(crate) fn take_dropped(&self) -> u64 {
        self.dropped.swap(0, Ordering::SeqCst)
    }

    /// How many connections found no place since this was asked.
    pub(crate) fn take_turned_away(&self) -> u64 {
        self.turned_away.swap(0, Ordering::SeqCst)
    }

    /// How many connections couldn't be accepted since this was asked.
    pub(crate) fn take_failed(&self) -> u64 {
        self.failed.swap(0, Ordering::SeqCst)
    }

    /// How many calls were refused since this was asked.
    pub(crate) fn take_refused(&self) -> u64 {
        self.refused.swap(0, Ordering::SeqCst)
    }

    /// Why the last one couldn't be accepted, by the system's number, where that is known.
    pub(crate) fn last_error(&self) -> Option<i32> {
        let code = i32::try_from(self.error.load(Ordering::SeqCst)).unwrap_or(0);
        if code == 0 { None } else { Some(code) }
    }
}
