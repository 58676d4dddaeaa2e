//! What nodes made, dropped and moved under names, and files that get a size, come to by the
//! parcels under Volume Logical.

mod laws;

pub use laws::{files_are_sized, nodes_are_linked, nodes_are_made_and_dropped, nodes_are_moved};
