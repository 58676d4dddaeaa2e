//! What happens to connections.

use nfs_values::ConnectionNumber;
use std::fmt;
use std::net::SocketAddr;

/// Why a connection was closed.
#[derive(Clone, Copy)]
pub enum Reason {
    /// Its peer closed it, and all replies were written.
    PeerClosed,
    /// A header brings a record above 131,072 bytes (RFC 5531 section 11).
    RecordTooLong,
    /// A record ends within the head of a call (RFC 5531 section 9).
    BadHeader,
    /// A record is no call message (RFC 5531 section 9).
    NotACall,
    /// Memory ran out for one of its records.
    NoMemory,
    /// It brought as many records as may be.
    NumbersUsed,
    /// It can't be read or written.
    SocketFailed,
    /// Nothing was heard of it for long, and others wait for its place.
    Idle,
    /// The server stops, and its replies were written or weren't taken.
    Stops,
}

impl Reason {
    /// The reason in words.
    fn words(self) -> &'static str {
        match self {
            Reason::PeerClosed => "the peer closed it",
            Reason::RecordTooLong => "a record of more than 131,072 bytes",
            Reason::BadHeader => "a record that ends within the head of a call",
            Reason::NotACall => "a record that is no call",
            Reason::NoMemory => "out of memory for a record",
            Reason::NumbersUsed => "as many records came as may be",
            Reason::SocketFailed => "its socket failed",
            Reason::Idle => "idle, and others wait for a place",
            Reason::Stops => "the server stops",
        }
    }
}

/// What happened to a connection. Its number is none of another connection of the server.
#[derive(Clone, Copy)]
pub enum Event {
    /// It was opened.
    Opened {
        connection: ConnectionNumber,
        peer: SocketAddr,
    },
    /// It was closed.
    Closed {
        connection: ConnectionNumber,
        peer: SocketAddr,
        reason: Reason,
    },
    /// It was closed before a byte was read, since its peer may not connect.
    NotAllowed {
        peer: SocketAddr,
    },
    /// It was closed before a byte was read, since it can't be served: its socket can't be
    /// prepared, or memory ran out.
    NotServed {
        peer: SocketAddr,
    },
}

impl fmt::Display for Event {
    fn fmt<W: fmt::Write>(&self, f: &mut fmt::Formatter<W>) -> fmt::Result {
        match self {
            Event::Opened { connection, peer } => {
                let number = connection.0;
                write!(f, "connection {number} opened: {peer}")
            }
            Event::Closed {
                connection,
                peer,
                reason,
            } => {
                let number = connection.0;
                let why = reason.words();
                write!(f, "connection {number} closed: {peer}, {why}")
            }
            Event::NotAllowed { peer } => write!(f, "not allowed: {peer}"),
            Event::NotServed { peer } => write!(f, "can't be served: {peer}"),
        }
    }
}
