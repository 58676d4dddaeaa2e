//! Whose connections are served, and how their callers stand.

ghost use Rattle.std.specs.Prelude.{◌≡◌, ◌⊎◌, ◌↔◌, IsTrue};
ghost use Rattle.std.specs.Net.Socket.{socket_ip, socket_port};
ghost use Rattle.server_options.specs.Peers.{OnlyReads};
ghost use Rattle.server_options.specs.Standings.{squash_at};

use crate::peers::Peers;
use nfs_values::{Squash, Standing};
use std::net::SocketAddr;

/// The ports below it are given to root alone.
pub(crate) const LOW_PORTS: u16 = 1_024;

/// Whose connections are served, and how their callers stand.
#[derive(Clone, Copy)]
pub struct PeerRules {
    /// Whose connections are served, and which of them may change nothing.
    pub peers: Peers,
    /// How callers stand of whom nothing else is said here.
    pub standing: Standing,
    /// Whether all callers are anonymous that come from a port from 1024 on.
    pub is_port_asked: bool,
}

impl PeerRules {
    /// Everybody is served, and no caller is checked.
    pub const OPEN: PeerRules = PeerRules {
        peers: Peers::All,
        standing: Standing::UNCHECKED,
        is_port_asked: false,
    };

    /// For whom callers are taken that come from a port.
    fn squash_at(&self, port: u16) -> Squash
        ensures { result ≡ squash_at self.now port }
    {
        if self.is_port_asked && port >= LOW_PORTS {
            return Squash::Everyone;
        }
        self.standing.squash
    }

    /// How the callers of a peer stand.
    pub fn standing_at(&self, peer: &SocketAddr) -> Standing
        ensures checked { result.is_checked ≡ self.now.standing.is_checked }
        ensures reading { IsTrue result.reads_only ↔ (IsTrue self.now.standing.reads_only
            ⊎ OnlyReads self.now.peers (socket_ip peer.now)) }
        ensures squash { result.squash ≡ squash_at self.now (socket_port peer.now) }
        ensures anonymous { result.anonymous_uid ≡ self.now.standing.anonymous_uid
            × result.anonymous_gid ≡ self.now.standing.anonymous_gid }
    {
        Standing {
            reads_only: self.standing.reads_only || self.peers.only_read(&peer.ip()),
            squash: self.squash_at(peer.port()),
            ..self.standing
        }
    }
}
