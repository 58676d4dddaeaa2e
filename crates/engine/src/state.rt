//! The fields of an engine.

use crate::connection::Connection;
use crate::worker::Worker;
use desk::{Desk, ParcelKinds};
use engine_feed::{Calls, OpenConnection};
use nfs_values::Verifier;
use rpc_msg::Offer;
use service::Service;
use slab::Slab;
use std::alloc::Global;

/// How many connections may be open.
pub(crate) const CONNECTIONS: usize = 64;

/// How many ranges a volume may have.
pub(crate) const RANGES: u32 = 16;

/// The nanoseconds of a second.
pub(crate) const SECOND: u32 = 1_000_000_000;

/// An engine: connections by number, the calls on their way, what each worker runs, and the
/// parcels that they run on.
#[derive(Drop)]
pub(crate) struct State {
    pub(crate) alloc: Global,
    /// By what is offered records are read.
    pub(crate) offer: Offer,
    pub(crate) verifier: Verifier,
    /// By number.
    pub(crate) connections: Vec<Connection>,
    /// The open ones, each under its key.
    pub(crate) slab: Slab<OpenConnection>,
    pub(crate) calls: Calls,
    pub(crate) workers: Vec<Worker>,
    pub(crate) desk: Desk<Service, ParcelKinds>,
}
