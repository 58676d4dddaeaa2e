//! Connections that are accepted.

use crate::common::Common;
use crate::mailbox::{Arrival, Mailbox};
use crate::seconds::second_now;
use crate::serve_fault::ServeFault;
use crate::stop_word::Watch;
use clerk::Event;
use server_options::{Options, WhenFull};
use std::io::{self, ErrorKind};
use std::net::{SocketAddr, TcpListener, TcpStream};
use std::rt::Clock;
use std::sync::{Arc, Wait};
use std::time::Duration;

/// The milliseconds after which it is tried again to accept.
const PAUSE: u64 = 100;

/// Makes a stream as a lane wants it: no call on it waits, and a short reply doesn't wait for more;
/// where the latter fails it only comes later.
pub(crate) fn is_prepared(stream: &TcpStream) -> bool {
    let _set = stream.set_nodelay(true);
    stream.set_nonblocking(true).is_ok()
}

/// Where connections come in: what is asked of them, the lanes that they go to, and how many came.
#[derive(Drop)]
pub(crate) struct Door<'a> {
    options: &'a Options,
    mailboxes: &'a [Arc<Mailbox>],
    common: &'a Common,
    /// How many came, wrapping at 2^64.
    came: u64,
    /// The lane whose turn it is.
    turn: usize,
}

impl<'a> Door<'a> {
    /// Before the first connection.
    pub(crate) fn new(
        options: &'a Options,
        mailboxes: &'a [Arc<Mailbox>],
        common: &'a Common,
    ) -> Door<'a> {
        Door {
            options,
            mailboxes,
            common,
            came: 0,
            turn: 0,
        }
    }

    /// Whether the server was asked to stop.
    pub(crate) fn is_to_stop(&self) -> bool {
        match &self.common.stop {
            Some(word) => word.is_asked(),
            None => false,
        }
    }

    /// Whether as many came as are wanted, or the server was asked to stop.
    fn is_done(&self) -> bool {
        match self.options.connections {
            Some(connections) => self.came >= connections || self.is_to_stop(),
            None => self.is_to_stop(),
        }
    }

    /// Whether as many connections are open as may be.
    fn is_full(&self) -> bool {
        self.common.ends.open() >= self.options.admission.most_open
    }

    /// Waits for a place, where those that find none wait.
    fn wait_for_place<R: Wait>(&self, rt: &R) {
        let admission = &self.options.admission;
        match admission.when_full {
            WhenFull::Waits => {
                let most = admission.most_open;
                self.common.ends.wait_for_fewer(rt, most);
            }
            WhenFull::IsClosed => {}
        }
    }

    /// Leaves a stream for the lane whose turn it is. Where that can't be it is closed.
    fn hand_over<R: Wait>(&mut self, rt: &R, stream: TcpStream, peer: SocketAddr) -> bool {
        let turn = if self.turn < self.mailboxes.len() {
            self.turn
        } else {
            0
        };
        self.turn = turn.saturating_add(1);
        match self.mailboxes.get(turn) {
            Some(mailbox) => {
                is_prepared(&stream) && mailbox.leave(rt, Arrival::of(stream, peer))
            }
            None => false,
        }
    }

    /// Tells that a connection finds no place, and has the lanes close those that are idle.
    fn turn_away<R: Clock>(&self, rt: &R) {
        self.common.arrivals.turn_away();
        if let Some(journal) = &self.common.journal {
            journal.turn_away();
        }
        if self.common.crowd.leave(second_now(rt).into()) {
            for mailbox in self.mailboxes {
                mailbox.wake();
            }
        }
    }

    /// Lets a connection in that comes from a peer that is served and has a place. Any other is
    /// closed before a byte is read, and counts as ended; one of a peer that isn't served doesn't
    /// count.
    fn let_in<R: Wait + Clock>(&mut self, rt: &R, stream: TcpStream, peer: SocketAddr) {
        if !self.options.rules.peers.has(&peer.ip()) {
            self.common.note(rt, Event::NotAllowed { peer });
            return;
        }
        let is_full = self.is_full();
        self.came = self.came.wrapping_add(1);
        self.common.ends.come();
        if is_full {
            self.turn_away(rt);
        } else if self.hand_over(rt, stream, peer) {
            self.common.arrivals.accept();
            return;
        } else {
            self.common.note(rt, Event::NotServed { peer });
        }
        self.common.ends.add();
    }

    /// A connection can't be accepted: whether to try again, after a pause.
    fn goes_on<R: Clock>(&self, rt: &R, error: &io::Error) -> bool {
        match self.options.admission.when_full {
            WhenFull::Waits => false,
            WhenFull::IsClosed => {
                if let Some(journal) = &self.common.journal {
                    journal.fail(error);
                }
                rt.sleep(Duration::from_millis(PAUSE));
                true
            }
        }
    }

    /// Waits until all that came have ended.
    pub(crate) fn wait_for_all<R: Wait>(&self, rt: &R) {
        self.common.ends.wait_for_fewer(rt, 1);
    }
}

/// Accepts as many connections as are asked for, or for as long as the program runs or until it is
/// asked to stop, and lets them in. Where one can't be accepted no more are, or it is tried again
/// after a pause, as the options say. With a watch the listener doesn't wait, and it sleeps on it.
pub(crate) fn accept_all<R: Wait + Clock>(
    rt: &R,
    listener: &TcpListener,
    door: &mut Door<'_>,
    mut watch: Option<Watch>,
) -> Result<(), ServeFault> {
    for _ in rt.forever() {
        if door.is_done() {
            return Ok(());
        }
        door.wait_for_place(rt);
        match listener.accept() {
            Ok((stream, peer)) => door.let_in(rt, stream, peer),
            Err(error) => match &mut watch {
                Some(watch) if error.kind() == ErrorKind::WouldBlock => watch.sleep(rt),
                _ => {
                    if !door.goes_on(rt, &error) {
                        return Err(ServeFault::AcceptFailed);
                    }
                }
            },
        }
    }
    unreachable!()
}
