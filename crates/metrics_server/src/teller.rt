//! Who tells metrics.

use std::alloc::Global;
use std::net::IpAddr;

/// What is asked of who tells metrics.
pub trait Teller {
    /// Whether an address may connect. Connections of others are closed before a byte is read.
    fn may_connect(&self, address: &IpAddr) -> bool;

    /// The text of the metrics, if there is memory for it.
    fn text(&mut self, alloc: Global) -> Option<Vec<u8>>;
}
