//! The word by which a server is asked to stop.

use mio::unix::SourceFd;
use mio::{Events, Interest, Poll, Token, Waker};
use std::alloc::Global;
use std::io;
use std::net::{Net, TcpListener};
use std::os::fd::AsRawFd;
use std::rt::Clock;
use std::sync::atomic::{AtomicBool, AtomicU64, Ordering};
use std::time::Duration;

/// The token of the listener and of the waker: an event only wakes.
const ANY: Token = Token(0);

/// The most events that one poll gives.
const EVENTS: usize = 2;

/// How long it pauses where the poll failed, in milliseconds.
const PAUSE: u64 = 100;

/// How long it is waited for replies to go out once the server stops, in seconds.
const PATIENCE: u64 = 5;

/// Word that a server is to stop: who asks for it wakes the loop that accepts, which says when no
/// connection is accepted any more.
pub(crate) struct StopWord {
    asked: AtomicBool,
    /// The second up to which it is waited for replies to go out, or 0 before it stops.
    until: AtomicU64,
    waker: Waker,
}

// By hand, so that crates above have no proof of the drop of each of its parts.
impl Drop for StopWord {
    fn drop(self) {
        let StopWord {
            asked: _,
            until: _,
            waker: _,
        } = self;
    }
}

impl StopWord {
    /// Asks that the server stops.
    pub(crate) fn ask(&self) {
        if !self.asked.swap(true, Ordering::SeqCst) {
            let _woken = self.waker.wake();
        }
    }

    /// Whether that was asked.
    pub(crate) fn is_asked(&self) -> bool {
        self.asked.load(Ordering::SeqCst)
    }

    /// In a second: no connection is accepted any more.
    pub(crate) fn begin(&self, second: u32) {
        let until = u64::from(second) + PATIENCE;
        self.until.store(until, Ordering::SeqCst);
    }

    /// The second up to which it is waited for replies to go out, once no connection is accepted
    /// any more.
    pub(crate) fn until(&self) -> Option<u64> {
        match self.until.load(Ordering::SeqCst) {
            0 => None,
            until => Some(until),
        }
    }
}

/// What the loop that accepts sleeps on where it may be asked to stop.
#[derive(Drop)]
pub(crate) struct Watch {
    poll: Poll,
    events: Events,
}

impl Watch {
    /// A watch over a listener, which doesn't wait from then on, and the word that wakes it too.
    pub(crate) fn new(
        alloc: Global,
        net: &impl Net,
        listener: &TcpListener,
    ) -> io::Result<(Watch, StopWord)> {
        listener.set_nonblocking(true)?;
        let poll = Poll::new(net)?;
        let descriptor = listener.as_raw_fd();
        let mut source = SourceFd(&descriptor);
        poll.registry()
            .register(&mut source, ANY, Interest::READABLE)?;
        let word = StopWord {
            asked: AtomicBool::new(false),
            until: AtomicU64::new(0),
            waker: Waker::new(poll.registry(), ANY)?,
        };
        let events = Events::with_capacity(alloc, EVENTS)?;
        Ok((Watch { poll, events }, word))
    }

    /// Sleeps until there may be a connection to accept, or it is asked to stop.
    pub(crate) fn sleep<R: Clock>(&mut self, rt: &R) {
        if self.poll.poll(&mut self.events, None).is_err() {
            rt.sleep(Duration::from_millis(PAUSE));
        }
    }
}
