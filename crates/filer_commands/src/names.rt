//! Hosts' names in words of a command line.

use server_options::{MOST_NETWORKS, Network};
use std::net::{IpAddr, Ipv4Addr, Net, SocketAddr};

/// The most addresses of a name that are looked at.
const MOST_ADDRESSES: usize = 16;

/// Where the addresses of hosts are looked up.
pub trait Names {
    /// Puts the first addresses of a host at the start of a list, each with this port, and answers
    /// how many: none where none is known.
    fn look_up(&self, host: &str, port: u16, found: &mut [SocketAddr]) -> usize;
}

/// No host is known by its name.
#[derive(Drop)]
pub struct NoNames;

impl Names for NoNames {
    fn look_up(&self, _host: &str, _port: u16, _found: &mut [SocketAddr]) -> usize {
        0
    }
}

/// The names that the system knows.
#[derive(Drop)]
pub(crate) struct SystemNames<'a, R> {
    pub(crate) net: &'a R,
}

impl<R: Net> Names for SystemNames<'_, R> {
    fn look_up(&self, host: &str, port: u16, found: &mut [SocketAddr]) -> usize {
        self.net.lookup_host(host, port, found).unwrap_or(0)
    }
}

/// Whether a character may stand in a host's name.
fn is_in_names(character: char) -> bool {
    character.is_ascii_alphanumeric() || character == '-' || character == '.'
}

/// Whether a text has the form of a host's name: its last part begins with a letter, so that it's
/// no address in a form of which only the system knows, as `127.1`.
pub(crate) fn is_name(text: &str) -> bool {
    let last = match text.rsplit_once('.') {
        Some((_parts, last)) => last,
        None => text,
    };
    last.starts_with(|first: char| first.is_ascii_alphabetic()) && text.chars().all(is_in_names)
}

/// The addresses of a host, at the start of a list, and how many.
fn addresses_of<N: Names>(
    names: &N,
    host: &str,
    port: u16,
) -> ([SocketAddr; MOST_ADDRESSES], usize) {
    let none = SocketAddr::new(IpAddr::V4(Ipv4Addr::UNSPECIFIED), port);
    let mut found = [none; MOST_ADDRESSES];
    let count = names.look_up(host, port, &mut found);
    (found, count)
}

/// The address of a host: its first one of IPv4, or else its first one, if one is known.
pub(crate) fn address_of<N: Names>(names: &N, host: &str, port: u16) -> Option<SocketAddr> {
    let (found, count) = addresses_of(names, host, port);
    let mut first = None;
    for address in found.iter().take(count) {
        if address.is_ipv4() {
            return Some(*address);
        }
        first = first.or(Some(*address));
    }
    first
}

/// The network of one address.
fn network_of(address: IpAddr) -> Option<Network> {
    let bits = match address {
        IpAddr::V4(_) => 32,
        IpAddr::V6(_) => 128,
    };
    Network::new(address, bits)
}

/// A network for each address of a host, at the start of a list.
pub(crate) fn networks_of<N: Names>(names: &N, host: &str) -> [Option<Network>; MOST_NETWORKS] {
    let mut networks = [None; MOST_NETWORKS];
    let (found, count) = addresses_of(names, host, 0);
    for (network, address) in networks.iter_mut().zip(found.iter().take(count)) {
        *network = network_of(address.ip());
    }
    networks
}
