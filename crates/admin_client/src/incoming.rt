//! The record that a stream has next.

ghost use Rattle.std.specs.Prelude.{List, ℕ, IfSome, IfErr};
ghost use Rattle.admin_client.specs.Incoming.{HasNext, IsOfStream, IsOpen, Takes};

use crate::fault::AdminFault;
use rpc_record::{Reassembler, Step};
use std::alloc::Global;
use std::io::{ErrorKind, Read};

/// How many bytes are read at most in one go.
const BLOCK: usize = 4_096;

/// Takes a piece of the stream: the record that it completes, or why there is none, unless more
/// has to come.
fn take(records: &mut Reassembler, piece: &[u8]) -> Option<Result<Vec<u8>, AdminFault>>
    ensures { (came : List ℕ)
        → IsOpen came records.old
        → Takes (λ made. made.items) came piece.now result records.new }
{
    let (_taken, step) = records.feed(piece);
    match step {
        Step::Record(made) => Some(Ok(made)),
        Step::More => None,
        Step::Fault => Some(Err(AdminFault::TooLong)),
        Step::NoMemory => Some(Err(AdminFault::NoMemory)),
    }
}

/// The next record of a stream, however it is cut (RFC 5531 section 11). What has come behind it
/// is lost.
pub fn next_record<R: Read>(alloc: Global, stream: &mut R) -> Result<Vec<u8>, AdminFault>
    ensures next { IfSome (R.remaining stream.old) (HasNext (λ made. made.items) result) }
    ensures faults { IfErr result IsOfStream }
{
    let mut records = Reassembler::new(alloc);
    let mut block = [0; BLOCK];
    for _turn in 0..u64::MAX {
        match stream.read(&mut block) {
            Ok(0) => return Err(AdminFault::Cut),
            Ok(size) => match take(&mut records, &block[..size]) {
                Some(ended) => return ended,
                None => {}
            },
            Err(error) => {
                if error.kind() != ErrorKind::Interrupted {
                    return Err(AdminFault::of_stream(&error));
                }
            }
        }
    }
    Err(AdminFault::Stream)
}
