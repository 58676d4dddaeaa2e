//! How many block numbers of each volume are where: counts that are kept by volume, how they are
//! taken anew from the parcels that a worker holds, and how they change with what workers carry.

mod carried;
mod counting;
mod counts;
mod nodes;
mod opening;
mod tally;

pub use carried::{count_culled, count_put};
pub use counts::{PartCounts, VolumeCounts};
pub use opening::opening_counts;
pub use tally::Tally;
