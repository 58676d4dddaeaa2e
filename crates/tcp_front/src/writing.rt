//! Reply records that are written.

ghost use Rattle.std.specs.Prelude.{◌≡◌};
ghost use Rattle.outboxes.specs.Messages.{record_of};
ghost use Rattle.tcp_front.specs.Counts.{may_fail};
ghost use Rattle.tcp_front.specs.Writing.{IsWritten, HasWritten, write_fault_number};

use crate::counted::Counted;
use crate::piece::write_piece;
use crate::source::RecordSource;
use outboxes::Record;
use std::io::Write;
use std::sync::Wait;

/// A writer failed, after this many bytes went out. The count stays at the last value of its type.
#[derive(Clone, Copy)]
pub struct WriteFault {
    pub sent: u64,
}

impl WriteFault {
    /// The number by which the fault is told, 65.
    pub fn number(self) -> u32
        ensures { result ≡ write_fault_number }
    {
        65
    }
}

/// Writes a record whole. At a failure of the device it answers how many bytes of it went out.
pub fn write_record<W: Write>(writer: &mut Counted<W>, reply: &Record) -> Result<(), usize>
    requires { may_fail writer.old }
    ensures { IsWritten W.contents writer.old (record_of reply.now) result writer.new }
{
    write_piece(writer, reply.as_slice())
}

/// Writes the records of a source until it has none: all of them whole, or at a failure of the
/// device some whole and then a beginning of one.
pub fn write_loop<R: Wait, W: Write, S: RecordSource>(
    rt: &R,
    writer: &mut Counted<W>,
    source: &mut S,
) -> Result<(), WriteFault>
    requires { may_fail writer.old }
    ensures { HasWritten W.contents S.gave S.is_out writer.old source.old result
        writer.new source.new }
{
    let mut sent = 0u64;
    for _ in rt.forever() {
        let record = match source.take() {
            Some(record) => record,
            None => return Ok(()),
        };
        match write_record(writer, &record) {
            Ok(()) => sent = sent.saturating_add(record.as_slice().len() as u64),
            Err(begun) => {
                let sent = sent.saturating_add(begun as u64);
                return Err(WriteFault { sent });
            }
        }
    }
    unreachable!()
}
