//! Heads of calls and whole replies of RPC (RFC 5531) as bytes.
#![tactic(auto)]

mod boxed_call;
mod credential;
mod fault;
mod handle_form;
mod handles;
mod head;
mod items;
mod laws;
mod offer;
mod record;
mod reply;
mod room;
mod stop;

pub use boxed_call::BoxedCall;
pub use fault::RecordFault;
pub use handle_form::HandleForm;
pub use handles::tell;
pub use head::{Head, read_call, read_call_of};
pub use laws::{
    arguments_are_spelled, call_heads_are_exact, credentials_are_spelled, faults_are_spelled,
    handles_come_back, record_faults, records_are_decoded, records_are_spelled, refusals_fit,
    replies_fit, servers_are_roomy, versions_are_spelled,
};
pub use nfs_values::Procedure as Served;
pub use offer::Offer;
pub use record::{
    DecodedCall, Heard, RecordVerdict, Request, Verdict, read_record, read_record_into,
    read_record_of,
};
pub use reply::{move_reply_record, size_of_reply, write_reply, write_reply_record};
pub use room::{REFUSAL_ROOM, room_of_reply};
