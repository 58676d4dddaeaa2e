//! Why a server ends before its work is done.

ghost use Rattle.std.specs.Prelude.{◌≡◌};
ghost use Rattle.server.specs.Faults.{fault_of_start, fault_of_serving};

use crate::serve_fault::ServeFault;
use std::alloc::AllocError;
use std::io::{self, ErrorKind};
use tends::StartRefusal;

/// Why a server ends before its work is done.
#[derive(Clone, Copy, PartialEq, Eq, Debug)]
pub enum ServerFault {
    /// The address can't be listened at.
    Listen,
    /// A connection can't be accepted, or not served once it was accepted.
    Accept,
    /// A thread can't be started.
    Thread,
    /// Memory ran out.
    NoMemory,
    /// A line can't be printed.
    Output,
}

/// Why no clerk can be had, as a server's fault: memory, or a descriptor by which it would wait.
pub(crate) fn of_clerk(error: &io::Error) -> ServerFault {
    match error.kind() {
        ErrorKind::OutOfMemory => ServerFault::NoMemory,
        _ => ServerFault::Thread,
    }
}

impl From<AllocError> for ServerFault {
    fn from(_refused: AllocError) -> ServerFault {
        ServerFault::NoMemory
    }
}

/// Why a pool doesn't start, as a server's fault.
pub(crate) fn of_start(refusal: StartRefusal) -> ServerFault
    ensures { result ≡ fault_of_start refusal }
{
    match refusal {
        StartRefusal::NoThread => ServerFault::Thread,
        StartRefusal::NoMemory => ServerFault::NoMemory,
    }
}

/// Why no more connections are accepted, as a server's fault.
pub(crate) fn of_serving(fault: ServeFault) -> ServerFault
    ensures { result ≡ fault_of_serving fault }
{
    match fault {
        ServeFault::AcceptFailed => ServerFault::Accept,
    }
}
