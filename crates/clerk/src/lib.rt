//! Who writes lines on what happens to a server's connections.
#![tactic(auto)]

mod clock;
mod counts;
mod event;
mod journal;
mod page;
mod period;
mod quota;
mod report;
mod times;
mod writing;

pub use event::{Event, Reason};
pub use journal::Journal;
pub use period::{MOST_MINUTES, Period};
pub use quota::Quota;
pub use report::{Inquiry, Report, Used};
pub use times::{Span, Times};
pub use writing::{Clerk, write_until_end};
