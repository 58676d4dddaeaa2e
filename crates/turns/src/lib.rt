//! Workers, each with a seat of one depot and a pass of one queue, and their turns. A worker's type
//! keeps the balance of what it picked, finished, put back and keeps.
#![tactic(auto)]

mod admitting;
mod counting;
mod inner;
mod making;
mod one_turn;
mod parts;
mod queueing;
mod starting;
mod stock;
mod tend;
mod tending;
mod turns;
mod worker;

pub use parts::WorkerParts;
pub use service::{BatchInHand, Service};
pub use stock::ENOUGH_STOCKED;
pub use tend::{Tend, TendRefusal, Tended};
pub use worker::Worker;
