//! Maps by fileid that are stored in chunks of 32 fileids which follow one another.
#![tactic(auto)]

mod chunk;
mod chunk_map;
mod numbered;
mod page;
mod reading;

pub use chunk::{Chunk, slot};
pub use chunk_map::ChunkMap;
pub use reading::GROUP;
