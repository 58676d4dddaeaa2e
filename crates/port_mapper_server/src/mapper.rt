//! A port mapper that serves.

ghost use Rattle.std.specs.Prelude.{◌≤◌, vec_len};
ghost use Rattle.port_mapper_server.specs.declared.mapper.TheConstants.{MOST_CALLERS};

use crate::caller::{Caller, Visit};
use crate::datagrams::answer_some;
use crate::peers::AllowedPeers;
use mio::net::{TcpListener, TcpStream, UdpSocket};
use mio::{Events, Interest, Poll, Token};
use port_mapper::Registration;
use std::alloc::Global;
use std::io;
use std::net::{Net, SocketAddr};
use std::rt::Clock;
use std::sync::atomic::{AtomicBool, Ordering};
use std::time::Duration;

/// The most connections that are open at one time. Others wait.
pub const MOST_CALLERS: usize = 8;

/// The most connections that are accepted in a turn.
const MOST_ACCEPTED: usize = 16;

/// The most events that one poll gives.
const EVENTS: usize = 16;

/// The milliseconds after which it is looked again for silent connections and for the end.
const TURN: u64 = 500;

/// How long it pauses where the poll failed, in milliseconds.
const PAUSE: u64 = 100;

/// The token of every socket: events only wake, and each turn tries all sockets.
const ANY: Token = Token(0);

/// The seconds since an arbitrary start, by a clock that nobody sets, or 0 where it can't be read.
fn second_now<R: Clock>(rt: &R) -> u32 {
    match rt.monotonic() {
        Ok(time) => u32::try_from(time.as_secs()).unwrap_or(u32::MAX),
        Err(_failed) => 0,
    }
}

/// The sockets of a port mapper, and its connections.
pub struct PortMapper {
    alloc: Global,
    poll: Poll,
    events: Events,
    listener: TcpListener,
    datagrams: UdpSocket,
    callers: Vec<Caller>,
    ghost few: { vec_len callers ≤ MOST_CALLERS },
}

// By hand, so that crates above have no proof of the drop of each of its parts.
impl Drop for PortMapper {
    fn drop(self) {
        let PortMapper {
            alloc: _,
            poll: _,
            events: _,
            listener: _,
            datagrams: _,
            callers: _,
        } = self;
    }
}

impl PortMapper {
    /// Listens at an address by TCP and by UDP.
    pub fn bind<R: Net>(rt: &R, alloc: Global, address: SocketAddr) -> io::Result<PortMapper> {
        let mut listener = TcpListener::bind(rt, address)?;
        let mut datagrams = UdpSocket::bind(rt, address)?;
        let poll = Poll::new(rt)?;
        let registry = poll.registry();
        registry.register(&mut listener, ANY, Interest::READABLE)?;
        registry.register(&mut datagrams, ANY, Interest::READABLE)?;
        Ok(PortMapper {
            alloc,
            poll,
            events: Events::with_capacity(alloc, EVENTS)?,
            listener,
            datagrams,
            callers: Vec::with_capacity(alloc, MOST_CALLERS)?,
        })
    }

    /// Serves calls of peers that are allowed, by what is registered, until it is stopped: at most
    /// half a second later.
    pub fn serve<R: Net + Clock, P: AllowedPeers>(
        &mut self,
        rt: &R,
        registered: &[Registration],
        peers: &P,
        stopped: &AtomicBool,
    ) {
        for _turn in 0..u64::MAX {
            if stopped.load(Ordering::SeqCst) {
                return;
            }
            let is_busy = self.turn(rt, registered, peers);
            self.wait(rt, is_busy);
        }
    }

    /// Tries all sockets. Answers whether there may be more to do.
    fn turn<R: Net + Clock, P: AllowedPeers>(
        &mut self,
        rt: &R,
        registered: &[Registration],
        peers: &P,
    ) -> bool {
        let now = second_now(rt);
        let have_callers = self.visit_all(registered, now);
        let has_arrivals = self.accept_some(peers, now);
        let has_datagrams = answer_some(rt, self.alloc, &self.datagrams, registered, peers);
        have_callers || has_arrivals || has_datagrams
    }

    /// Visits each connection, and closes those that have ended or were silent for too long.
    /// Answers whether there may be more to do.
    fn visit_all(&mut self, registered: &[Registration], now: u32) -> bool {
        let mut is_busy = false;
        for place in (0..self.callers.len()).rev() {
            match self.visit(place, registered, now) {
                Visit::Waits => {}
                Visit::GoesOn => is_busy = true,
                Visit::Ends => self.close(place),
            }
        }
        is_busy
    }

    /// Visits the connection at a place.
    fn visit(&mut self, place: usize, registered: &[Registration], now: u32) -> Visit {
        let Some(caller) = self.callers.get_mut(place) else {
            return Visit::Waits;
        };
        let visit = caller.visit(self.alloc, registered, now);
        if caller.is_idle(now) {
            Visit::Ends
        } else {
            visit
        }
    }

    /// Closes the connection at a place, which the last one takes.
    fn close(&mut self, place: usize) {
        if place < self.callers.len() {
            let _closed = self.callers.swap_remove(place);
        }
    }

    /// Accepts connections that wait, of peers that are allowed, while there is a place for them.
    /// Answers whether more may wait for one.
    fn accept_some<P: AllowedPeers>(&mut self, peers: &P, now: u32) -> bool {
        for _arrival in 0..MOST_ACCEPTED {
            if self.callers.len() >= MOST_CALLERS {
                return false;
            }
            match self.listener.accept() {
                Ok((stream, peer)) => {
                    if peers.has(&peer.ip()) {
                        let _closed = self.admit(stream, now);
                    }
                }
                Err(_error) => return false,
            }
        }
        true
    }

    /// Keeps a connection. One that can't be kept is closed.
    fn admit(&mut self, stream: TcpStream, now: u32) -> io::Result<()> {
        let mut stream = stream;
        let reached = stream.local_addr()?.ip().to_canonical();
        let both = Interest::READABLE | Interest::WRITABLE;
        self.poll.registry().register(&mut stream, ANY, both)?;
        let count = self.callers.len();
        if count < MOST_CALLERS && count < self.callers.capacity() {
            let caller = Caller::new(self.alloc, stream, reached, now);
            self.callers.push_reserved(caller);
        }
        Ok(())
    }

    /// Waits for the sockets, at most half a second; not at all where there may be more to do.
    fn wait<R: Clock>(&mut self, rt: &R, is_busy: bool) {
        let longest = if is_busy { 0 } else { TURN };
        let longest = Some(Duration::from_millis(longest));
        if self.poll.poll(&mut self.events, longest).is_err() {
            rt.sleep(Duration::from_millis(PAUSE));
        }
    }
}
