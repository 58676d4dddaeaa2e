//! Bytes that are written whole.

ghost use Rattle.std.specs.Prelude.{◌<◌};
ghost use Rattle.tcp_front.specs.Counts.{may_fail};
ghost use Rattle.tcp_front.specs.Writing.{IsWritten};

use crate::counted::Counted;
use std::io::Write;

/// Writes a piece whole. At a failure of the device it answers how many bytes of it went out.
pub fn write_piece<W: Write>(writer: &mut Counted<W>, piece: &[u8]) -> Result<(), usize>
    requires { may_fail writer.old }
    ensures { IsWritten W.contents writer.old piece.now result writer.new }
{
    let mut sent = 0;
    while sent < piece.len() {
        match writer.write_some(&piece[sent..]) {
            Ok(taken) => sent += taken,
            Err(_) => return Err(sent),
        }
    }
    Ok(())
}
