//! Connections over devices that don't wait: one read cuts what came into records, one write hands
//! over a beginning of what waits. No thread and no socket is in this crate.
#![tactic(auto)]

mod backlog;
mod connection;
mod cutting;
mod device;
mod due;
mod joining;
mod keyed;
mod reading;
mod rest;
mod told;
mod watched;
mod writing;

pub use connection::{Connection, Flags};
pub use device::{Device, answer_of};
pub use due::Due;
pub use keyed::{close_under, flag_under, open_under, write_under};
pub use reading::Came;
pub use told::{DeviceCall, Told};
pub use watched::Watched;
pub use writing::{BUFFER_BYTES, Sent};
