//! What waits to be written to connections: reply records, in order, for each one that is open.
#![tactic(auto)]

mod addressed_record;
mod box_list;
mod chain;
mod lanes;
mod link;
mod numbered_reply;
mod outbox;
mod outboxes;
mod record;
mod refusal;
mod room;

pub use addressed_record::AddressedRecord;
pub use lanes::lanes_are_apart;
pub use outboxes::Outboxes;
pub use record::Record;
pub use refusal::OpenRefusal;
pub use room::Room;
