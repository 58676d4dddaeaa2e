//! What bytes on a connection do to it and to the calls on their way: which records they complete,
//! and whether these are answered at once or wait.
#![tactic(auto)]

mod admission;
mod admitting;
mod arrival;
mod at_once;
mod calls;
mod connection;
mod feeding;
mod finishing;
pub mod laws;
mod message;
mod mounting;
mod moving;
mod reading;
mod reply;
mod state;
mod stop;

pub use admission::{Admission, admission_of, reply_at_once};
pub use calls::Calls;
pub use connection::OpenConnection;
pub use message::FinishedCall;
pub use reading::stream_fault;
pub use stop::{Stop, StreamFault};
