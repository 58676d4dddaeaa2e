//! Network identifiers and universal addresses (RFC 1833 section 2.1, RFC 5665 section 5.2).

ghost use Rattle.std.specs.Prelude.{◌≡◌, IfOk, find, string_bytes};
ghost use Rattle.port_mapper.specs.Addresses.{bound_port, is_binding, netid_of, universal};

use crate::registration::{Protocol, Registration, is_version};
use std::alloc::{AllocError, Global};
use std::net::IpAddr;

/// The network identifier of a protocol, for addresses of the family of this one (RFC 5665 section
/// 5.2.4).
pub fn netid_of(protocol: Protocol, address: &IpAddr) -> &'static [u8]
    ensures { result.now ≡ netid_of protocol address.now }
{
    match (protocol, address) {
        (Protocol::Tcp, IpAddr::V4(_)) => b"tcp",
        (Protocol::Tcp, IpAddr::V6(_)) => b"tcp6",
        (Protocol::Udp, IpAddr::V4(_)) => b"udp",
        (Protocol::Udp, IpAddr::V6(_)) => b"udp6",
    }
}

/// The universal address of a port at an address: the address as text, and the two bytes of the
/// port, the higher first (RFC 5665 sections 5.2.3.3 and 5.2.3.4).
pub fn universal_address(alloc: Global, address: &IpAddr, port: u16) -> Result<String, AllocError>
    ensures { IfOk result (λ text. string_bytes text ≡ universal address.now port) }
{
    let (high, low) = (port / 256, port % 256);
    format!(in alloc; "{address}.{high}.{low}")
}

/// Whether it is this version of this program by this network identifier, for a client that reached
/// this address.
fn is_binding(
    reached: &IpAddr,
    program: u32,
    version: u32,
    netid: &[u8],
    registration: &Registration,
) -> bool
    ensures { result ≡ is_binding reached.now program version netid.now registration.now }
{
    is_version(program, version, registration) && netid_of(registration.protocol, reached) == netid
}

/// The first that is this version of this program by this network identifier, for a client that
/// reached this address.
fn first_binding(
    registered: &[Registration],
    reached: &IpAddr,
    program: u32,
    version: u32,
    netid: &[u8],
) -> Option<Registration>
    ensures { result
        ≡ find (is_binding reached.now program version netid.now) registered.now }
{
    for each in registered {
        if is_binding(reached, program, version, netid, each) {
            return Some(*each);
        }
    }
    None
}

/// The port of a version of a program, where it is registered by this network identifier.
pub(crate) fn bound_port(
    registered: &[Registration],
    reached: &IpAddr,
    program: u32,
    version: u32,
    netid: &[u8],
) -> Option<u16>
    ensures { result ≡ bound_port registered.now reached.now program version netid.now }
{
    let found = first_binding(registered, reached, program, version, netid)?;
    Some(found.port)
}
