//! Replies that go into datagrams of at most 512 bytes.

use crate::bytes::{SERVER_PORT, holds, is_reply, spelled};
use port_mapper::{answer_datagram, beside};
use std::net::{IpAddr, Ipv4Addr};

/// A NULL is answered. A DUMP of version 4 isn't: its reply has 532 bytes. Of these the head has
/// 24, each of the port mapper's six entries 64, with an address of 21 characters, each of the
/// server's two 60, with one of 19, and the end of the list 4.
#[test]
fn datagrams(rt: HostRuntime) {
    let registered = beside(SERVER_PORT);
    let reached = IpAddr::V4(Ipv4Addr::new(192, 168, 100, 200));
    let request = spelled(&rt, &[7, 0, 2, 100_000, 2, 0, 0, 0, 0, 0]);
    let reply = answer_datagram(rt.alloc(), &registered, &reached, &request);
    let reply = reply.expect(&rt, "no memory");
    let bytes = reply.as_ref().map(|reply| reply.as_slice());
    is_reply(&rt, "NULL", bytes, Some(&[7, 1, 0, 0, 0, 0]));

    let request = spelled(&rt, &[7, 0, 2, 100_000, 4, 4, 0, 0, 0, 0]);
    let reply = answer_datagram(rt.alloc(), &registered, &reached, &request);
    let reply = reply.expect(&rt, "no memory");
    holds(&rt, "DUMP of version 4", reply.is_none());
}
