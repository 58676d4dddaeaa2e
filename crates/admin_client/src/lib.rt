//! A client of the admin program: the records of its calls, what their replies tell, and a call
//! over a stream.
#![tactic(auto)]

mod asking;
mod call;
mod counts;
mod fault;
mod growth;
mod head;
mod incoming;
mod laws;
mod refusal;
mod reply;
mod volumes;

pub use asking::{census, grow, stop};
pub use call::{AdminCall, AdminUser, call_record};
pub use fault::AdminFault;
pub use growth::Growth;
pub use incoming::next_record;
pub use laws::{calls_are_heard, replies_are_told, told_replies_are_spelled};
pub use refusal::CallRefusal;
pub use reply::{read_census, read_growth, read_stop};
pub use volumes::{BlockTotals, Census};
