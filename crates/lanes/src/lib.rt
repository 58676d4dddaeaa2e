//! Lanes: threads that alone read, run and write for their connections, over any device that
//! doesn't wait.
#![tactic(auto)]

mod intake;
mod lane;
mod lane_outboxes;
mod placing;

pub use engine_feed::StreamFault;
pub use intake::Intake;
pub use lane::{Lane, LaneParts};
pub use lane_outboxes::LaneOutboxes;
pub use tcp_front::Stopped;
