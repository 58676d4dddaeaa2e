//! Reply records that are written many at once.

ghost use Rattle.std.specs.Prelude.{◌≡◌, ◌≤◌, ◌+◌, ◌++◌, length, vec_len, vec_capacity};
ghost use Rattle.tcp_front.specs.Counts.{may_fail};
ghost use Rattle.tcp_front.specs.Joining.{HasJoined, HasSentMore, HasWrittenJoined};

use crate::counted::Counted;
use crate::piece::write_piece;
use crate::source::RecordSource;
use crate::writing::WriteFault;
use outboxes::Record;
use std::io::Write;
use std::sync::Wait;

/// The most records of one write.
const MOST_JOINED: usize = 64;

/// Why no more records are joined.
#[derive(Drop)]
enum Joined {
    /// The source has none.
    Out,
    /// They are many.
    Many,
    /// This one has no room beside them.
    Over(Record),
}

/// Appends bytes that have their room.
fn keep(buffer: &mut Vec<u8>, bytes: &[u8])
    requires { vec_len buffer.old + length bytes.now ≤ vec_capacity buffer.old }
    ensures { buffer.new.items ≡ buffer.old.items ++ bytes.now }
{
    buffer.extend_from_slice(bytes).unwrap();
}

/// Takes records of a source behind what is in a buffer, as long as it has room.
fn join<S: RecordSource>(source: &mut S, buffer: &mut Vec<u8>) -> Joined
    ensures { HasJoined S.gave S.is_out source.old buffer.old.items result
        source.new buffer.new.items }
{
    for _ in 0..MOST_JOINED {
        let record = match source.take() {
            Some(record) => record,
            None => return Joined::Out,
        };
        if buffer.capacity() - buffer.len() < record.as_slice().len() {
            return Joined::Over(record);
        }
        keep(buffer, record.as_slice());
    }
    Joined::Many
}

/// Writes a piece after this many bytes went out. Answers how many these are then.
fn send<W: Write>(writer: &mut Counted<W>, piece: &[u8], sent: u64) -> Result<u64, WriteFault>
    requires { may_fail writer.old }
    ensures { HasSentMore W.contents writer.old piece.now sent result writer.new }
{
    match write_piece(writer, piece) {
        Ok(()) => Ok(sent.saturating_add(piece.len() as u64)),
        Err(begun) => Err(WriteFault {
            sent: sent.saturating_add(begun as u64),
        }),
    }
}

/// `write_loop` with as many records in one write as a buffer has room for. What was in the buffer
/// is lost.
pub fn write_joined<R: Wait, W: Write, S: RecordSource>(
    rt: &R,
    writer: &mut Counted<W>,
    buffer: &mut Vec<u8>,
    source: &mut S,
) -> Result<(), WriteFault>
    requires { may_fail writer.old }
    ensures { HasWrittenJoined W.contents S.gave S.is_out writer.old source.old result
        writer.new source.new }
{
    let mut sent = 0;
    for _ in rt.forever() {
        buffer.clear();
        let joined = join(source, buffer);
        sent = match send(writer, buffer, sent) {
            Ok(sent) => sent,
            Err(fault) => return Err(fault),
        };
        match joined {
            Joined::Out => return Ok(()),
            Joined::Many => {}
            Joined::Over(record) => {
                sent = match send(writer, record.as_slice(), sent) {
                    Ok(sent) => sent,
                    Err(fault) => return Err(fault),
                };
            }
        }
    }
    unreachable!()
}
