//! The engine: connections, calls on their way, workers, and the parcels that calls run on;
//! and the numbers of blocks that are kept beside them.
#![tactic(auto)]

mod beginning;
mod carrying;
mod connecting;
mod connection;
mod counting;
mod counts;
mod engine;
mod event;
mod feeding;
mod finishing;
mod inner;
mod laws;
mod lending;
mod opening;
mod state;
mod worker;
mod working;

pub use crate::counts::PartCounts;
pub use engine::Engine;
pub use engine_feed::{FinishedCall, Stop, StreamFault};
pub use event::{Done, Event, Refusal};
pub use service::{BatchInHand, Outcome};
pub use worker::{Running, Worker, WorkerRun};
