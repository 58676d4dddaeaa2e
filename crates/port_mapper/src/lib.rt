//! A port mapper (RFC 1833): what is registered, and what it answers.
#![tactic(auto)]

mod address;
mod answering;
mod asking;
mod call;
mod conversation;
mod laws;
mod outcome;
mod procedure;
mod registration;
mod replies;

pub use address::{netid_of, universal_address};
pub use answering::{MOST_DATAGRAM, answer, answer_datagram};
pub use conversation::{Conversation, MOST_REQUEST};
pub use laws::calls_are_answered;
pub use registration::{MAPPER_PORT, Protocol, Registration, beside};
