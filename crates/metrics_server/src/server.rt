//! A server of metrics.

ghost use Rattle.std.specs.Prelude.{◌≤◌, vec_len};
ghost use Rattle.metrics_server.specs.declared.server.TheConstants.{MOST_CALLERS};

use crate::caller::{Caller, Visit};
use crate::milliseconds::millisecond_now;
use crate::teller::Teller;
use mio::net::{TcpListener, TcpStream};
use mio::{Events, Interest, Poll, Token};
use std::alloc::Global;
use std::io;
use std::net::{Net, SocketAddr};
use std::rt::Clock;
use std::sync::atomic::{AtomicBool, Ordering};
use std::time::Duration;

/// The most connections that are open at one time. Others wait.
pub const MOST_CALLERS: usize = 8;

/// The most connections that are accepted in a turn.
const MOST_ACCEPTED: usize = 16;

/// The most events that one poll gives.
const EVENTS: usize = 16;

/// The milliseconds after which it is looked again for the end.
const TURN: u64 = 500;

/// How long it pauses where the poll failed, in milliseconds.
const PAUSE: u64 = 100;

/// The token of every socket: events only wake, and each turn tries all sockets.
const ANY: Token = Token(0);

/// The listener of a server of metrics, and its connections.
pub struct MetricsServer {
    alloc: Global,
    poll: Poll,
    events: Events,
    listener: TcpListener,
    callers: Vec<Caller>,
    ghost few: { vec_len callers ≤ MOST_CALLERS },
}

// By hand, so that crates above have no proof of the drop of each of its parts.
impl Drop for MetricsServer {
    fn drop(self) {
        let MetricsServer {
            alloc: _,
            poll: _,
            events: _,
            listener: _,
            callers: _,
        } = self;
    }
}

impl MetricsServer {
    /// Listens at an address.
    pub fn bind<R: Net>(rt: &R, alloc: Global, address: SocketAddr) -> io::Result<MetricsServer> {
        let mut listener = TcpListener::bind(rt, address)?;
        let poll = Poll::new(rt)?;
        poll.registry()
            .register(&mut listener, ANY, Interest::READABLE)?;
        Ok(MetricsServer {
            alloc,
            poll,
            events: Events::with_capacity(alloc, EVENTS)?,
            listener,
            callers: Vec::with_capacity(alloc, MOST_CALLERS)?,
        })
    }

    /// The address at which it listens.
    pub fn address(&self) -> io::Result<SocketAddr> {
        self.listener.local_addr()
    }

    /// Answers requests with what is told, until it is stopped: at most half a second later.
    pub fn serve<R: Clock, T: Teller>(&mut self, rt: &R, teller: &mut T, stopped: &AtomicBool) {
        for _turn in 0..u64::MAX {
            if stopped.load(Ordering::SeqCst) {
                return;
            }
            let is_busy = self.turn(rt, teller);
            self.wait(rt, is_busy);
        }
    }

    /// Tries all sockets. Answers whether there may be more to do.
    fn turn<R: Clock, T: Teller>(&mut self, rt: &R, teller: &mut T) -> bool {
        let have_callers = self.visit_all(teller);
        self.close_late(millisecond_now(rt));
        let has_arrivals = self.accept_some(teller, millisecond_now(rt));
        have_callers || has_arrivals
    }

    /// Visits each connection, and closes those that have ended. Answers whether there may be more
    /// to do.
    fn visit_all<T: Teller>(&mut self, teller: &mut T) -> bool {
        let mut is_busy = false;
        for place in (0..self.callers.len()).rev() {
            match self.visit(place, teller) {
                Visit::Waits => {}
                Visit::GoesOn => is_busy = true,
                Visit::Ends => self.close(place),
            }
        }
        is_busy
    }

    /// Visits the connection at a place.
    fn visit<T: Teller>(&mut self, place: usize, teller: &mut T) -> Visit {
        match self.callers.get_mut(place) {
            Some(caller) => caller.visit(self.alloc, teller),
            None => Visit::Waits,
        }
    }

    /// For how many milliseconds more the connection at a place may be open.
    fn left(&self, place: usize, now: u64) -> u64 {
        match self.callers.get(place) {
            Some(caller) => caller.left(now),
            None => TURN,
        }
    }

    /// Closes the connections that were open for as long as they may.
    fn close_late(&mut self, now: u64) {
        for place in (0..self.callers.len()).rev() {
            if self.left(place, now) == 0 {
                self.close(place);
            }
        }
    }

    /// Closes the connection at a place, which the last one takes.
    fn close(&mut self, place: usize) {
        if place < self.callers.len() {
            let _closed = self.callers.swap_remove(place);
        }
    }

    /// Accepts connections that wait, of peers that are allowed, while there is a place for them.
    /// Answers whether there may be more to do.
    fn accept_some<T: Teller>(&mut self, teller: &T, now: u64) -> bool {
        for arrival in 0..MOST_ACCEPTED {
            if self.callers.len() >= MOST_CALLERS {
                return false;
            }
            match self.listener.accept() {
                Ok((stream, peer)) => {
                    if teller.may_connect(&peer.ip()) {
                        let _closed = self.admit(stream, now);
                    }
                }
                Err(_error) => return arrival > 0,
            }
        }
        true
    }

    /// Keeps a connection. One that can't be kept is closed.
    fn admit(&mut self, stream: TcpStream, now: u64) -> io::Result<()> {
        let mut stream = stream;
        let _set = stream.set_nodelay(true);
        let both = Interest::READABLE | Interest::WRITABLE;
        self.poll.registry().register(&mut stream, ANY, both)?;
        let count = self.callers.len();
        if count < MOST_CALLERS && count < self.callers.capacity() {
            let caller = Caller::new(self.alloc, stream, now)?;
            self.callers.push_reserved(caller);
        }
        Ok(())
    }

    /// Waits for the sockets, until a connection was open for as long as it may, and at most half a
    /// second; not at all where there may be more to do.
    fn wait<R: Clock>(&mut self, rt: &R, is_busy: bool) {
        let mut longest = if is_busy { 0 } else { TURN };
        let now = millisecond_now(rt);
        for place in 0..self.callers.len() {
            longest = longest.min(self.left(place, now));
        }
        let longest = Some(Duration::from_millis(longest));
        if self.poll.poll(&mut self.events, longest).is_err() {
            rt.sleep(Duration::from_millis(PAUSE));
        }
    }
}
