//! The lines of a server on standard output.

ghost use Rattle.std.specs.Prelude.{OnOk};
ghost use Rattle.std.specs.Io.KnownBytes.{Appends};
ghost use Rattle.filer_lanes.specs.Ends.{unfinished_in};
ghost use Rattle.server.specs.Served.{left_line};

use crate::fault::ServerFault;
use filer_lanes::FilerEnd;
use std::io::Write;
use std::net::{SocketAddr, TcpListener};

/// Prints where a server listens.
pub(crate) fn print_address<W: Write>(
    listener: &TcpListener,
    out: &mut W,
) -> Result<(), ServerFault> {
    let address: SocketAddr = listener.local_addr().map_err(|_| ServerFault::Listen)?;
    writeln!(out, "listening {address}").map_err(|_| ServerFault::Output)
}

/// Prints how many messages weren't finished.
pub(crate) fn print_left<W: Write>(end: &FilerEnd, out: &mut W) -> Result<(), ServerFault>
    ensures { OnOk result (Appends (W.contents out.old) (W.contents out.new)
        (left_line (unfinished_in end.now))) }
{
    let count = end.unfinished();
    writeln!(out, "left {count}").map_err(|_| ServerFault::Output)
}
