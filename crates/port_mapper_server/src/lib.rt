//! The sockets of a port mapper: calls over TCP and UDP, answered one after another by one thread.
#![tactic(auto)]

mod caller;
mod datagrams;
mod mapper;
mod peers;

pub use mapper::{MOST_CALLERS, PortMapper};
pub use peers::AllowedPeers;
