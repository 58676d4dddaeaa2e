//! Sequences of items by position, in which an item comes or goes in time logarithmic in their
//! number.

mod balance;
mod change;
mod chunk;
mod part;
mod room;
mod sequence;
mod tree;

pub use part::Part;
pub use room::SpareChunk;
pub use sequence::Sequence;
