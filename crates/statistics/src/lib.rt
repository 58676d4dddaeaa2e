//! What came of calls, counted: replies by kind, how long calls took, and a line that tells them.
//! It has no threads: one thread counts, and another reads.
#![tactic(auto)]

mod counts;
mod histogram;
mod kind;
mod tally;
mod totals;
mod wrapping;

pub use counts::ReplyCounts;
pub use histogram::Histogram;
pub use kind::{RefusalKind, ReplyKind};
pub use tally::Tally;
pub use totals::{Refusals, Totals};
