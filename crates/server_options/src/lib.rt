//! What a server is asked to do: where it listens, whom it serves, and what its volumes have.
#![tactic(auto)]

mod admission;
mod allowed;
mod idle;
mod network;
mod options;
mod peer_rules;
mod peers;
mod plan;
mod roots;

pub use admission::{Admission, WhenFull};
pub use allowed::AllowedNetwork;
pub use clerk::{MOST_MINUTES, Period};
pub use idle::{IdleTime, MOST_IDLE_SECONDS};
pub use network::Network;
pub use options::Options;
pub use peer_rules::PeerRules;
pub use peers::{MOST_NETWORKS, Peers, address_of, may_stop};
pub use plan::{LEAST_VOLUME, MOST_BYTES, MOST_REPLIES, VolumePlan};
pub use roots::root_for;
pub use tends::MOST_WORKERS;
