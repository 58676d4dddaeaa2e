//! The parcels of a filer: what each node of the tree holds, the parcels of a layout as a run
//! begins, and how many ranges a volume has.
//!
//! `state` says what parcels stand for and when they are sound. The other modules are laws: what a
//! call of one kind does to sound parcels.
#![tactic(auto)]

pub mod attributes;
pub mod bytes;
pub mod changes;
mod counting;
mod directory_map;
mod files;
mod giving_back;
pub mod laws;
mod logical;
pub mod names;
pub mod nodes;
mod opening;
pub mod permissions;
mod range;
pub mod state;
mod stripe;
mod text_map;
pub mod totals;

pub use counting::ranges_used;
pub use directory_map::DirectoryMap;
pub use files::Files;
pub use giving_back::give_back;
pub use logical::{Logical, LogicalParcel};
pub use opening::opening_parcels;
pub use range::RangeParcel;
pub use stripe::StripeParcel;
pub use text_map::TextMap;
