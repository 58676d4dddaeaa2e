//! What `export` is asked to do.

use server_options::Options;
use std::net::SocketAddr;

/// A server that clients mount, and what runs beside it.
#[derive(Clone, Copy)]
pub struct Exporting {
    pub options: Options,
    /// Whether a port mapper tells where it listens.
    pub has_port_mapper: bool,
    /// Where metrics are told, if they are.
    pub metrics: Option<SocketAddr>,
}
