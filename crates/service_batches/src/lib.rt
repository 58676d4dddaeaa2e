//! Inner calls on the parcels that they hold: a worker's calls with its hand, which carries a batch
//! of block numbers from one part of a volume to another.
#![tactic(auto)]

mod counting;
mod in_logical;
mod in_range;

pub use counting::survey;
pub use in_logical::{cull, deliver};
pub use in_range::{fetch, free};
