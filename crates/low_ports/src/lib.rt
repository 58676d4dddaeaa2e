//! TCP connections from a port of the own side below 1024, which the system gives to root alone.
//! Where `std` connects the system chooses that port, so the calls of C are made here.
#![tactic(auto)]

mod address;

use crate::address::RawAddress;
use libc::net as c;
use os::FromRawFd;
use std::io::{self, ErrorKind};
use std::net::{IpAddr, Ipv4Addr, Ipv6Addr, Net, SocketAddr, TcpStream};
use std::os::fd::AsRawFd;
use std::time::Duration;

/// The ports below it are given to root alone.
const LOW_PORTS: u16 = 1_024;

/// The last of the ports that are tried, from 1023 downwards.
const LAST: u16 = 512;

/// What a call of C's came to.
fn checked(status: i32) -> io::Result<()> {
    if status < 0 {
        Err(io::Error::from_raw_os_error(os::errno()))
    } else {
        Ok(())
    }
}

/// A socket for an address, not connected.
fn new_socket(address: &SocketAddr) -> io::Result<TcpStream> {
    let kind = c::SOCK_STREAM | c::SOCK_CLOEXEC;
    let descriptor = match address {
        SocketAddr::V4(_) => unsafe { c::socket(c::AF_INET, kind, 0) },
        SocketAddr::V6(_) => unsafe { c::socket(c::AF_INET6, kind, 0) },
    };
    if descriptor < 0 {
        return Err(io::Error::from_raw_os_error(os::errno()));
    }
    Ok(unsafe { TcpStream::from_raw_fd(descriptor) })
}

/// Any address of the own side, of the same family as another, with a port.
fn own_side(other: &SocketAddr, port: u16) -> SocketAddr {
    match other {
        SocketAddr::V4(_) => SocketAddr::new(IpAddr::V4(Ipv4Addr::UNSPECIFIED), port),
        SocketAddr::V6(_) => SocketAddr::new(IpAddr::V6(Ipv6Addr::UNSPECIFIED), port),
    }
}

/// A connection to a server from a port, made within a time.
fn connect_from(server: &SocketAddr, port: u16, patience: Duration) -> io::Result<TcpStream> {
    let stream = new_socket(server)?;
    stream.set_write_timeout(Some(patience))?;
    let own = RawAddress::of(&own_side(server, port));
    checked(unsafe { c::bind(stream.as_raw_fd(), &own.bytes, own.size) })?;
    let there = RawAddress::of(server);
    checked(unsafe { c::connect(stream.as_raw_fd(), &there.bytes, there.size) })?;
    Ok(stream)
}

/// A connection to a server from a port below 1024, made within a time: from the first that is
/// free of 1023 downwards. Where the system gives these ports to others alone that is
/// `PermissionDenied`.
pub fn connect(_net: &impl Net, server: &SocketAddr, patience: Duration) -> io::Result<TcpStream> {
    for port in (LAST..LOW_PORTS).rev() {
        match connect_from(server, port, patience) {
            Ok(stream) => return Ok(stream),
            Err(error) => match error.kind() {
                ErrorKind::AddrInUse | ErrorKind::AddrNotAvailable => {}
                _ => return Err(error),
            },
        }
    }
    Err(io::Error::from(ErrorKind::AddrInUse))
}
