//! What a server tells Prometheus: the text of its metrics, what a request asks for, and responses.
//! It has no sockets.
#![tactic(auto)]

mod lines;
mod measured;
mod request;
mod response;
mod seconds;
mod telling;

pub use measured::{Measured, VolumeUse};
pub use request::{Asked, MOST_REQUEST, RequestRefusal, read_request};
pub use response::{metrics_response, refusal_response};
pub use telling::exposition;
