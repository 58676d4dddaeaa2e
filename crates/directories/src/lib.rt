//! Directories: entries in the order of their cookies, and an index of them by name.
#![tactic(auto)]

mod directory;
mod entries;
mod guesses;
mod page;
mod search;
pub mod sequences;
mod slot;
mod spot;

pub use directory::Directory;
pub use page::Page;
pub use search::hash_of;
