//! Calls on the names and attributes of a volume, on the parcels that they hold, in a public module
//! for each group of them; and the steps of which other calls are made.
#![tactic(auto)]

mod ahead;
mod as_directory;
mod asking;
mod attributes;
mod cards;
mod child;
pub mod committing;
pub mod creating;
mod cutting;
mod dropping;
mod existing;
pub mod linking;
pub mod listing;
pub mod listing_plus;
pub mod looking;
mod making;
mod making_new;
pub mod mounting_below;
mod naming;
mod new_inodes;
mod node;
mod parent;
mod protection;
pub mod reading_link;
pub mod refusing;
pub mod removing;
pub mod setting;
mod showing;
mod sizing;
mod sought;
pub mod telling;
mod touches;

pub use ahead::{Ahead, look_ahead};
pub use attributes::attributes_now;
pub use cards::drop_cards;
pub use child::{child_at, directory_change, is_dots, is_empty};
pub use dropping::{counted_inode, directory_left, drop_directory, drop_inode, drop_text};
pub use filer_state::changes::renaming_calls_are_right;
pub use making::with_child;
pub use naming::{is_same_name, name_fault};
pub use node::Node;
pub use showing::shown_now;
pub use sizing::{set_inode, size_file};
pub use touches::{is_same, take_touches};
