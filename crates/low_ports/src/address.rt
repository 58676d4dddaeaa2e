//! Addresses as the system takes them.

ghost use Rattle.std.specs.Prelude.{◌≤◌, IsTrue};

use libc::net as c;
use std::net::SocketAddr;

/// An address as the system takes it, and how many of the bytes it is.
#[derive(Clone, Copy)]
pub(crate) struct RawAddress {
    pub(crate) bytes: [u8; c::_SS_SIZE],
    pub(crate) size: u32,
    ghost within: { size ≤ 128 },
}

/// Puts bytes at a place.
fn put(raw: &mut [u8; c::_SS_SIZE], place: usize, bytes: &[u8]) {
    for (at, byte) in bytes.iter().enumerate() {
        if let Some(free) = raw.get_mut(place.saturating_add(at)) {
            *free = *byte;
        }
    }
}

impl RawAddress {
    /// An address: C's `sockaddr_in` or `sockaddr_in6`, of which the port is in the order of the
    /// network and the scope isn't.
    pub(crate) fn of(address: &SocketAddr) -> RawAddress {
        let mut bytes = [0; c::_SS_SIZE];
        put(&mut bytes, 2, &address.port().to_be_bytes());
        match address {
            SocketAddr::V4(four) => {
                put(&mut bytes, 0, &(c::AF_INET as u16).to_ne_bytes());
                put(&mut bytes, 4, &four.ip().octets());
                RawAddress { bytes, size: 16 }
            }
            SocketAddr::V6(six) => {
                put(&mut bytes, 0, &(c::AF_INET6 as u16).to_ne_bytes());
                put(&mut bytes, 8, &six.ip().octets());
                put(&mut bytes, 24, &six.scope_id().to_ne_bytes());
                RawAddress { bytes, size: 28 }
            }
        }
    }
}
