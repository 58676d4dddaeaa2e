//! Record marking: the records of a stream, however it is cut (RFC 5531, section 11).
#![tactic(auto)]

mod framing;
mod join;
mod laws;
mod position;
mod reassembler;

pub use framing::{frame, put_header};
pub use laws::{reading_goes_by_bytes, reading_is_exact, stream_has_one_reading};
pub use position::RECORD_LIMIT;
pub use reassembler::{Look, Reassembler, Step};
