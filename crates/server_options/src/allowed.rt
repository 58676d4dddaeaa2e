//! Networks whose connections are served.

use crate::network::Network;
use std::fmt;

/// A network whose connections are served.
#[derive(Clone, Copy)]
pub struct AllowedNetwork {
    pub network: Network,
    /// Whether its callers may change nothing.
    pub reads_only: bool,
}

impl fmt::Display for AllowedNetwork {
    fn fmt<W: fmt::Write>(&self, f: &mut fmt::Formatter<W>) -> fmt::Result {
        let network = self.network;
        if self.reads_only {
            write!(f, "{network} (only to read)")
        } else {
            write!(f, "{network}")
        }
    }
}
