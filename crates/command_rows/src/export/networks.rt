//! Networks and peers (RFC 4632 section 3.1). `trials/command_lines` has texts that are no network.

use crate::looking::holds;
use server_options::{Network, Peers, address_of};
use std::net::{IpAddr, SocketAddr};
use std::process::Abort;

/// An address.
fn address(rt: &impl Abort, text: &str) -> IpAddr {
    text.parse::<IpAddr>().ok().expect(rt, "no address")
}

/// Whether a network has an address.
fn is_in(rt: &impl Abort, network: &str, peer: &str) -> bool {
    let network = Network::read(network).expect(rt, "no network");
    network.has(&address(rt, peer))
}

/// A network, an address, and whether that is in it.
const ROWS: [(&str, &str, bool); 17] = [
    ("127.0.0.1", "127.0.0.1", true),
    ("127.0.0.1", "127.0.0.2", false),
    ("10.0.0.0/8", "10.255.0.1", true),
    ("10.0.0.0/8", "11.0.0.1", false),
    ("192.0.2.128/25", "192.0.2.255", true),
    ("192.0.2.128/25", "192.0.2.127", false),
    ("0.0.0.0/0", "203.0.113.7", true),
    ("0.0.0.0/0", "::1", false),
    ("2001:db8::/32", "2001:db8:ffff::1", true),
    ("2001:db8::/32", "2001:db9::1", false),
    // IPv4 addresses in IPv6's form (RFC 4291 section 2.5.5.2)
    ("10.0.0.0/8", "::ffff:10.1.2.3", true),
    ("10.0.0.0/8", "::ffff:11.1.2.3", false),
    ("10.0.0.0/8", "::10.1.2.3", false),
    ("::/0", "::ffff:10.1.2.3", false),
    ("::/0", "2001:db8::1", true),
    ("::ffff:10.0.0.0/104", "10.1.2.3", true),
    ("::ffff:10.0.0.0/104", "::ffff:11.1.2.3", false),
];

#[test]
fn addresses_by_their_first_bits(rt: HostRuntime) {
    for (network, peer, is_so) in &ROWS {
        holds(&rt, is_in(&rt, network, peer) == *is_so);
    }
}

/// An address of IPv6, and whether it is of the own machine.
const OF_SIX: [(&str, bool); 6] = [
    ("::1", true),
    ("::ffff:127.0.0.1", true),
    ("::ffff:127.9.9.9", true),
    ("::2", false),
    ("::ffff:192.0.2.7", false),
    ("::127.0.0.1", false),
];

#[test]
fn peers_of_the_own_machine(rt: HostRuntime) {
    let here = address(&rt, "127.0.0.1");
    let there = address(&rt, "192.0.2.7");
    holds(
        &rt,
        Peers::Loopback.has(&here) && !Peers::Loopback.has(&there),
    );
    holds(&rt, Peers::All.has(&there));
    for (peer, is_own) in &OF_SIX {
        holds(&rt, Peers::Loopback.has(&address(&rt, peer)) == *is_own);
    }
}

/// The address of a peer, and as one number.
const NUMBERED: [(&str, u128); 3] = [
    ("192.0.2.7", 0xc000_0207),
    // an IPv4 address in IPv6's form (RFC 4291 section 2.5.5.2)
    ("::ffff:192.0.2.7", 0xc000_0207),
    ("2001:db8::1", 0x2001_0db8_0000_0000_0000_0000_0000_0001),
];

#[test]
fn addresses_that_calls_come_from(rt: HostRuntime) {
    for (text, number) in &NUMBERED {
        for port in [1, 65_535] {
            let from = address_of(&SocketAddr::new(address(&rt, text), port));
            holds(&rt, from.address == *number && from.port == port);
        }
    }
}
