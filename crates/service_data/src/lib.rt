//! Calls on the bytes of files, on the parcels that they hold: READ and WRITE.
#![tactic(auto)]

mod counting;
mod extending;
mod extension;
mod holes;
mod homes;
mod owners;
mod parts;
mod reading;
mod set_ids;
mod spans;
mod writing;

pub use reading::{read_in_logical, read_in_stripe};
pub use writing::{write_in_logical, write_in_stripe, write_in_volume};
