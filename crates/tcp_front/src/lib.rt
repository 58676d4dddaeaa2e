//! What a connection's bytes go through, over any reader and writer: records in, and replies out.
#![tactic(auto)]

mod counted;
mod giving;
mod joining;
mod next_record;
mod peer;
mod piece;
mod read_end;
mod reading;
mod sink;
mod source;
mod stream;
mod taking;
mod writing;

pub use counted::Counted;
pub use joining::write_joined;
pub use peer::Peer;
pub use piece::write_piece;
pub use read_end::ReadEnd;
pub use reading::{read_loop, read_loop_in};
pub use sink::RecordSink;
pub use source::RecordSource;
pub use stream::{MOST_RECORDS, Stopped, Stream};
pub use taking::take_some;
pub use writing::{WriteFault, write_loop, write_record};
