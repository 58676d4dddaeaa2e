//! Who is served.

use std::net::IpAddr;

/// The addresses whose calls are answered. Connections from others are closed before a byte is
/// read, and their datagrams are dropped.
pub trait AllowedPeers {
    /// Whether calls from an address are answered.
    fn has(&self, address: &IpAddr) -> bool;
}
