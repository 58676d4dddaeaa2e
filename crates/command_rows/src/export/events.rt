//! The lines of events.

use clerk::{Event, Reason};
use nfs_values::ConnectionNumber;
use std::net::SocketAddr;
use std::process::Abort;

/// An address.
fn address(rt: &impl Abort, text: &str) -> SocketAddr {
    let parsed = text.parse::<SocketAddr>();
    parsed.ok().expect(rt, "an address")
}

/// Looks whether an event is told so.
fn is_told(rt: &(impl Abort + AllocGlobal), event: Event, text: &str) {
    let line = format!(in rt.alloc(); "{event}").expect(rt, "memory");
    assert!(rt; line.as_str() == text);
}

/// Why connection 12 was closed, and how that is told.
const CLOSED: [(Reason, &str); 9] = [
    (
        Reason::PeerClosed,
        "connection 12 closed: 192.0.2.7:700, the peer closed it",
    ),
    (
        Reason::RecordTooLong,
        "connection 12 closed: 192.0.2.7:700, a record of more than 131,072 bytes",
    ),
    (
        Reason::BadHeader,
        "connection 12 closed: 192.0.2.7:700, a record that ends within the head of a call",
    ),
    (
        Reason::NotACall,
        "connection 12 closed: 192.0.2.7:700, a record that is no call",
    ),
    (
        Reason::NoMemory,
        "connection 12 closed: 192.0.2.7:700, out of memory for a record",
    ),
    (
        Reason::NumbersUsed,
        "connection 12 closed: 192.0.2.7:700, as many records came as may be",
    ),
    (
        Reason::SocketFailed,
        "connection 12 closed: 192.0.2.7:700, its socket failed",
    ),
    (
        Reason::Idle,
        "connection 12 closed: 192.0.2.7:700, idle, and others wait for a place",
    ),
    (
        Reason::Stops,
        "connection 12 closed: 192.0.2.7:700, the server stops",
    ),
];

/// Looks whether a closing is told so.
fn is_closed_so(rt: &(impl Abort + AllocGlobal), reason: Reason, text: &str) {
    let event = Event::Closed {
        connection: ConnectionNumber(12),
        peer: address(rt, "192.0.2.7:700"),
        reason,
    };
    is_told(rt, event, text);
}

#[test]
fn why_connections_were_closed(rt: HostRuntime) {
    for (reason, text) in &CLOSED {
        is_closed_so(&rt, *reason, text);
    }
}

#[test]
fn who_came(rt: HostRuntime) {
    let peer = address(&rt, "[2001:db8::7]:2049");
    let opened = Event::Opened {
        connection: ConnectionNumber(0),
        peer,
    };
    is_told(&rt, opened, "connection 0 opened: [2001:db8::7]:2049");
    let refused = Event::NotAllowed { peer };
    is_told(&rt, refused, "not allowed: [2001:db8::7]:2049");
    let unserved = Event::NotServed { peer };
    is_told(&rt, unserved, "can't be served: [2001:db8::7]:2049");
}
