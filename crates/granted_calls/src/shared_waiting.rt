//! Messages that wait, shared by threads: a queue under a rule over all that may use it. What went
//! in came out or is there, and fits the queue's key.

mod beside;
mod naming;
mod pass;
mod view;
mod waiting;

pub use pass::{Pass, SharedWaiting};
pub use view::{Fitting, View};
