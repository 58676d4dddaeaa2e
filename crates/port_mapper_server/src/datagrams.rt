//! Calls that come as datagrams, each answered by at most one.

use crate::peers::AllowedPeers;
use mio::net::UdpSocket;
use port_mapper::{Registration, answer_datagram};
use std::alloc::Global;
use std::io::{self, ErrorKind};
use std::net::{IpAddr, Net, SocketAddr};

/// How many bytes of a datagram are read at most; those behind them are lost.
const BLOCK: usize = 1_024;

/// The most datagrams of a turn.
const MOST_DATAGRAMS: usize = 16;

/// The address of the server that a peer reached. Where the socket is bound to every address, it is
/// the one by which the system would send to the peer.
fn reached_by<R: Net>(rt: &R, socket: &UdpSocket, peer: SocketAddr) -> io::Result<IpAddr> {
    let own = socket.local_addr()?.ip();
    if !own.is_unspecified() {
        return Ok(own.to_canonical());
    }
    let probe = UdpSocket::bind(rt, SocketAddr::new(own, 0))?;
    probe.connect(peer)?;
    Ok(probe.local_addr()?.ip().to_canonical())
}

/// Answers a datagram of a peer, if a reply is sent. A reply that can't be made or sent is lost.
fn answer_one<R: Net>(
    rt: &R,
    alloc: Global,
    socket: &UdpSocket,
    registered: &[Registration],
    request: &[u8],
    peer: SocketAddr,
) -> io::Result<()> {
    let reached = reached_by(rt, socket, peer)?;
    if let Some(reply) = answer_datagram(alloc, registered, &reached, request)? {
        let _sent = socket.send_to(&reply, peer)?;
    }
    Ok(())
}

/// Answers the datagrams that are there, at most 16, of peers that are allowed. Answers whether
/// there may be more.
pub(crate) fn answer_some<R: Net, P: AllowedPeers>(
    rt: &R,
    alloc: Global,
    socket: &UdpSocket,
    registered: &[Registration],
    peers: &P,
) -> bool {
    let mut block = [0; BLOCK];
    let mut has_come = false;
    for _datagram in 0..MOST_DATAGRAMS {
        match socket.recv_from(&mut block) {
            Ok((size, peer)) => {
                has_come = true;
                if peers.has(&peer.ip()) {
                    let request = &block[..size];
                    let _lost = answer_one(rt, alloc, socket, registered, request, peer);
                }
            }
            Err(error) => {
                if error.kind() == ErrorKind::WouldBlock {
                    return false;
                }
            }
        }
    }
    has_come
}
