//! Calls that wait to be run: each once, in the order of their arrival, and found by affinity.
#![tactic(auto)]

mod cells;
pub mod laws;
mod lines;
mod message;
mod queue_number;
mod waiting;

pub use message::{Message, Origin};
pub use waiting::{Full, MOST_WAITING, NoSuchCall, Waiting};
