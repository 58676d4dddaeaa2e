//! The tree of affinities: what a call runs on, which affinities exclude each other, and the
//! layouts that a run may have; the affinity that a call begins at, and the queues of calls that
//! wait by affinity.
#![tactic(auto)]

mod affinity;
mod fault;
pub mod homes;
pub mod laws;
mod layout;
mod nodes;
mod printed;
mod rules;
mod sizes;
mod specification;
mod tree;

pub use affinity::{Affinity, CallNode, HasKind, Kind};
pub use fault::LayoutFault;
pub use layout::Layout;
pub use rules::{MOST_AGGREGATES, MOST_RANGES, MOST_SPARE, MOST_VOLUMES};
pub use specification::{
    AggregateSpec, INODES, MEBIBYTE, MIB, MOST_INODES, MOST_MIB, MOST_SIZED_MIB, MOST_STRIPES,
    RANGE_BLOCKS, STEPS, STRIPES, SizedVolumeSpec, VolumeSpec,
};
