//! Whose connections are served.

ghost use Rattle.std.specs.Prelude.{◌↔◌, Any, IsTrue};
ghost use Rattle.server_options.specs.Peers.{ComesFrom, IsAt, IsHere, IsNamed};
ghost use Rattle.server_options.specs.Peers.{IsOwnV6, IsWriterBeyond};
ghost use Rattle.server_options.specs.Peers.{MayStop, OnlyReads, ReadsBy, Serves};

use crate::allowed::AllowedNetwork;
use crate::network::{Network, is_mapped, mapped_in};
use crate::peer_rules::LOW_PORTS;
use nfs_values::PeerAddress;
use std::fmt;
use std::net::{IpAddr, Ipv6Addr, SocketAddr};

/// The most networks that may be named.
pub const MOST_NETWORKS: usize = 16;

/// Whose connections are served.
#[derive(Clone, Copy)]
pub enum Peers {
    /// Everybody's.
    All,
    /// Those from the own machine.
    Loopback,
    /// Those from these networks.
    Networks([Option<AllowedNetwork>; MOST_NETWORKS]),
}

/// Whether an address is in a network, if that was named.
fn is_named(allowed: &Option<AllowedNetwork>, address: &IpAddr) -> bool
    ensures { IsTrue result ↔ IsNamed address.now allowed.now }
{
    match allowed {
        Some(allowed) => allowed.network.has(address),
        None => false,
    }
}

/// Whether an address is in a network that was named.
fn is_in_some(networks: &[Option<AllowedNetwork>], address: &IpAddr) -> bool
    ensures { IsTrue result ↔ Any (IsNamed address.now) networks.now }
{
    networks.iter().any(|allowed| is_named(allowed, address))
}

/// Whether an address is in a network whose callers may change things, and which has more bits than
/// this.
fn is_writer_beyond(allowed: &Option<AllowedNetwork>, bits: u32, address: &IpAddr) -> bool
    ensures { IsTrue result ↔ IsWriterBeyond address.now bits allowed.now }
{
    match allowed {
        Some(allowed) => {
            !allowed.reads_only && bits < allowed.network.bits && allowed.network.has(address)
        }
        None => false,
    }
}

/// Whether an address is in such a network among these.
fn has_writer_beyond(networks: &[Option<AllowedNetwork>], bits: u32, address: &IpAddr) -> bool
    ensures { IsTrue result ↔ Any (IsWriterBeyond address.now bits) networks.now }
{
    networks
        .iter()
        .any(|allowed| is_writer_beyond(allowed, bits, address))
}

/// Whether the callers of an address may change nothing by one of these networks.
fn reads_by(
    allowed: &Option<AllowedNetwork>,
    networks: &[Option<AllowedNetwork>],
    address: &IpAddr,
) -> bool
    ensures { IsTrue result ↔ ReadsBy address.now networks.now allowed.now }
{
    match allowed {
        Some(allowed) => {
            allowed.reads_only
                && allowed.network.has(address)
                && !has_writer_beyond(networks, allowed.network.bits, address)
        }
        None => false,
    }
}

/// Whether the callers of an address may change nothing by any of these networks.
fn reads_by_some(networks: &[Option<AllowedNetwork>], address: &IpAddr) -> bool
    ensures { IsTrue result ↔ Any (ReadsBy address.now networks.now) networks.now }
{
    networks
        .iter()
        .any(|allowed| reads_by(allowed, networks, address))
}

/// Whether an address of IPv6 is of the own machine: `::1`, or an IPv4 address of it in IPv6's
/// form.
fn is_own_of_six(address: &Ipv6Addr) -> bool
    ensures { IsTrue result ↔ IsOwnV6 address.now }
{
    let number = address.to_bits();
    address.is_loopback() || is_mapped(number) && mapped_in(number) >> 24 == 127
}

impl Peers {
    /// Whether connections from an address are served. An IPv4 address in IPv6's form is that IPv4
    /// address.
    pub fn has(&self, address: &IpAddr) -> bool
        ensures { IsTrue result ↔ Serves self.now address.now }
    {
        match self {
            Peers::All => true,
            Peers::Loopback => match address {
                IpAddr::V4(own) => own.is_loopback(),
                IpAddr::V6(own) => is_own_of_six(own),
            },
            Peers::Networks(networks) => is_in_some(networks, address),
        }
    }

    /// Whether the callers of an address may change nothing: of the networks that have it, that
    /// with the most bits says so, or one of these where there are several.
    pub fn only_read(&self, address: &IpAddr) -> bool
        ensures { IsTrue result ↔ OnlyReads self.now address.now }
    {
        match self {
            Peers::All | Peers::Loopback => false,
            Peers::Networks(networks) => reads_by_some(networks, address),
        }
    }
}

/// Whether an address is of this machine, on whose side a connection has that other one.
fn is_here(own: &IpAddr, address: &IpAddr) -> bool
    ensures { IsTrue result ↔ IsHere own.now address.now }
{
    Peers::Loopback.has(address) || Network::of_one(*own).has(address)
}

/// Whether a peer may stop the server, on whose side their connection has this address: it is this
/// machine, from a port below 1024.
pub fn may_stop(own: &IpAddr, peer: &SocketAddr) -> bool
    ensures { IsTrue result ↔ MayStop own.now peer.now }
{
    peer.port() < LOW_PORTS && is_here(own, &peer.ip())
}

/// The number of an address: of an IPv4 address its 32 bits, also where it is in IPv6's form.
fn number_of(address: &IpAddr) -> u128
    ensures { IsAt address.now result }
{
    match address {
        IpAddr::V4(own) => own.to_bits() as u128,
        IpAddr::V6(own) => {
            let number = own.to_bits();
            if is_mapped(number) {
                return mapped_in(number) as u128;
            }
            number
        }
    }
}

/// Where the calls of a peer come from.
pub fn address_of(peer: &SocketAddr) -> PeerAddress
    ensures { ComesFrom peer.now result }
{
    PeerAddress {
        address: number_of(&peer.ip()),
        port: peer.port(),
    }
}

/// Tells networks, each after a comma but the first.
fn write_networks<W: fmt::Write>(
    f: &mut fmt::Formatter<W>,
    networks: &[Option<AllowedNetwork>],
) -> fmt::Result {
    let mut is_first = true;
    for allowed in networks.iter().flatten() {
        if !is_first {
            f.write_str(", ")?;
        }
        is_first = false;
        write!(f, "{allowed}")?;
    }
    Ok(())
}

impl fmt::Display for Peers {
    fn fmt<W: fmt::Write>(&self, f: &mut fmt::Formatter<W>) -> fmt::Result {
        match self {
            Peers::All => f.write_str("everybody"),
            Peers::Loopback => f.write_str("this machine alone"),
            Peers::Networks(networks) => write_networks(f, networks),
        }
    }
}
