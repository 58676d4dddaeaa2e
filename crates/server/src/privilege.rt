//! Who is at the other end of a connection.

ghost use Rattle.std.specs.Prelude.{◌≡◌};
ghost use Rattle.server_options.specs.Peers.{ComesFrom};
ghost use Rattle.server.specs.Standings.{StandsAt};

use nfs_values::{PeerAddress, Standing};
use server_options::{PeerRules, address_of, may_stop};
use std::net::{SocketAddr, TcpStream};
use tcp_front::Peer;

/// The server itself.
const SELF: Peer = Peer {
    is_privileged: false,
    address: PeerAddress::NONE,
    standing: Standing::UNCHECKED,
};

/// Who is at an address, by the rules of peers.
fn peer_at(rules: &PeerRules, address: &SocketAddr, is_privileged: bool) -> Peer
    ensures address { ComesFrom address.now result.address }
    ensures standing { StandsAt rules.now address.now result.standing }
    ensures privileged { result.is_privileged ≡ is_privileged }
{
    Peer {
        is_privileged,
        address: address_of(address),
        standing: rules.standing_at(address),
    }
}

/// Who is at the other end of a stream, whose address is that, by the rules of peers; none is the
/// server itself.
pub(crate) fn peer_of(rules: &PeerRules, stream: &TcpStream, address: Option<SocketAddr>) -> Peer {
    let Some(address) = address else {
        return SELF;
    };
    let is_privileged = match stream.local_addr() {
        Ok(own) => may_stop(&own.ip(), &address),
        Err(_unknown) => false,
    };
    peer_at(rules, &address, is_privileged)
}
