//! What the accept loop leaves for a lane's thread.

use mio::{Poll, Token, Waker};
use std::alloc::Global;
use std::mem;
use std::net::{SocketAddr, TcpStream};
use std::sync::atomic::{AtomicBool, AtomicU64, Ordering};
use std::sync::{Mutex, Wait};
use tends::StartRefusal;

/// The token of the waker. No connection has it for a key.
const WAKER: Token = Token(usize::MAX);

/// A stream that was accepted, and its peer; none is the server itself, of which nobody is told.
#[derive(Drop)]
pub(crate) struct Arrival {
    pub(crate) stream: TcpStream,
    pub(crate) peer: Option<SocketAddr>,
}

impl Arrival {
    /// A stream of a peer.
    pub(crate) fn of(stream: TcpStream, peer: SocketAddr) -> Arrival {
        Arrival {
            stream,
            peer: Some(peer),
        }
    }
}

/// Streams that were accepted and that the thread of a lane has yet to open; and the word by which
/// it is told to stop. Whoever leaves something wakes the thread.
pub(crate) struct Mailbox {
    arrivals: Mutex<Vec<Arrival>>,
    /// How often a stream was left, wrapping at 2^64.
    left: AtomicU64,
    stopped: AtomicBool,
    waker: Waker,
}

// By hand, so that crates above have no proof of the drop of each of its parts.
impl Drop for Mailbox {
    fn drop(self) {
        let Mailbox {
            arrivals: _,
            left: _,
            stopped: _,
            waker: _,
        } = self;
    }
}

impl Mailbox {
    /// An empty mailbox of the thread that waits by this poll, with room for this many streams.
    pub(crate) fn new(
        alloc: Global,
        poll: &Poll,
        most_open: usize,
    ) -> Result<Mailbox, StartRefusal> {
        let Ok(arrivals) = Vec::with_capacity(alloc, most_open) else {
            return Err(StartRefusal::NoMemory);
        };
        let Ok(waker) = Waker::new(poll.registry(), WAKER) else {
            return Err(StartRefusal::NoThread);
        };
        Ok(Mailbox {
            arrivals: Mutex::new(arrivals),
            left: AtomicU64::new(0),
            stopped: AtomicBool::new(false),
            waker,
        })
    }

    /// Leaves a stream, and wakes the thread. Where there is no memory the stream is closed, and
    /// the answer is `false`.
    pub(crate) fn leave<R: Wait>(&self, rt: &R, arrival: Arrival) -> bool {
        let is_left = self.arrivals.lock(rt).push(arrival).is_ok();
        if is_left {
            self.left.fetch_add(1, Ordering::SeqCst);
            self.wake();
        }
        is_left
    }

    /// Wakes the thread.
    pub(crate) fn wake(&self) {
        let _woken = self.waker.wake();
    }

    /// How often a stream was left.
    pub(crate) fn left(&self) -> u64 {
        self.left.load(Ordering::SeqCst)
    }

    /// Takes all streams that were left, for those that are given.
    pub(crate) fn take<R: Wait>(&self, rt: &R, arrivals: &mut Vec<Arrival>) {
        let mut left = self.arrivals.lock(rt);
        mem::swap(&mut *left, arrivals);
    }

    /// Tells the thread to stop, and wakes it.
    pub(crate) fn stop(&self) {
        self.stopped.store(true, Ordering::SeqCst);
        self.wake();
    }

    /// Whether the thread was told to stop.
    pub(crate) fn is_stopped(&self) -> bool {
        self.stopped.load(Ordering::SeqCst)
    }
}
