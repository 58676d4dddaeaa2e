//! The sockets over which metrics are told: requests of HTTP, answered one after another by one
//! thread.
#![tactic(auto)]

mod caller;
mod milliseconds;
mod server;
mod teller;

pub use server::{MOST_CALLERS, MetricsServer};
pub use teller::Teller;
