//! Who is at the other end of a connection.

use nfs_values::{PeerAddress, Standing};

/// Who is at the other end of a connection.
#[derive(Clone, Copy)]
pub struct Peer {
    /// Whether it may stop the server: it is this machine, from a port below 1024.
    pub is_privileged: bool,
    /// Where its calls come from.
    pub address: PeerAddress,
    /// How its callers stand.
    pub standing: Standing,
}
