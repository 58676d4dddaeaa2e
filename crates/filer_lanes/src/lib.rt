//! The lanes of a filer: opened all at once, and put together at their end.
#![tactic(auto)]

mod ending;
mod gathering;
mod opening;
mod remains;
mod room;

pub use ending::{FilerEnd, end};
pub use opening::open_lanes;
pub use room::LaneBuffers;
