//! Block numbers of a volume: ranges, the stock, and dead blocks.
#![tactic(auto)]

mod batch;
mod dead;
mod fault;
mod levels;
mod looks;
mod marks;
mod range;
mod stock;
mod store;
mod words;

pub use batch::Batch;
pub use dead::DeadBlocks;
pub use fault::RangeFault;
pub use looks::Looks;
pub use range::Range;
pub use stock::Stock;
