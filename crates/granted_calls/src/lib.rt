//! Calls under a grant: a filer, the messages that wait for its workers, the run of a message's
//! call on a seat of its depot, and that of several under one grant. The outboxes that threads
//! share.
#![tactic(auto)]

mod answer;
mod chained;
mod chaining;
pub mod crossings;
mod entered_call;
mod entering;
mod envelope;
mod granted;
mod linking;
mod making;
mod moments;
mod opening;
mod serving;
mod shared;
mod shared_outboxes;
pub mod shared_waiting;
mod spent;
mod telling;
mod turned;

pub use answer::Answer;
pub use chained::{AnswerSink, Chained, Hint, Wanted};
pub use chaining::{ServedAll, run_messages};
pub use envelope::Envelope;
pub use serving::run_message;
pub use shared::Filer;
pub use shared_outboxes::{OutboxesPass, SharedOutboxes};
pub use spent::Spent;
pub use turned::{Gate, Place, Served, Stage, Turn, Unwatched};
