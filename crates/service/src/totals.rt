//! Calls on what is under a Volume, an Aggregate or Serial, on the parcels that they hold: FSSTAT,
//! and GROW and CENSUS of the admin program.

mod counting;
mod filesystem;
mod growing;
mod ranges;

pub use counting::census;
pub use filesystem::filesystem_status;
pub use growing::grow;
