//! RENAME, on the parcels that it holds.

mod as_directory;
mod asking;
mod between;
mod climb;
mod climbing;
mod dropping;
mod entry_name;
mod moving;
mod renaming;
mod telling;

pub use entry_name::EntryName;
pub use renaming::rename;
