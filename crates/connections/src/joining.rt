//! Records that are joined, to go out in one write.

ghost use Rattle.std.specs.Prelude.{◌≡◌, ◌≤◌, ◌+◌, ◌++◌, length, vec_len, vec_capacity};
ghost use Rattle.connections.specs.Joining.{HasJoined};

use crate::due::Due;
use nfs_values::ConnectionNumber;
use outboxes::{Outboxes, Record};

/// The most bytes of a record that is copied.
const MOST_COPIED: usize = 16_384;

/// Appends bytes that have their room.
fn keep(buffer: &mut Vec<u8>, bytes: &[u8])
    requires { vec_len buffer.old + length bytes.now ≤ vec_capacity buffer.old }
    ensures { buffer.new.items ≡ buffer.old.items ++ bytes.now }
{
    buffer.extend_from_slice(bytes).unwrap();
}

/// Takes what waits for a connection behind what is in a buffer, up to a record that is large or
/// has no room beside the others, which is handed out. What is taken is owed no more.
pub(crate) fn join(
    outboxes: &mut Outboxes,
    connection: ConnectionNumber,
    buffer: &mut Vec<u8>,
    owed: &mut Due,
) -> Option<Record>
    ensures { HasJoined connection.0 outboxes.old buffer.old.items owed.old result
        outboxes.new buffer.new.items owed.new }
{
    while let Some(record) = outboxes.take(connection) {
        owed.take(record.room());
        let size = record.as_slice().len();
        if size > MOST_COPIED || buffer.capacity() - buffer.len() < size {
            return Some(record);
        }
        keep(buffer, record.as_slice());
        outboxes.give_back(record);
    }
    None
}
