//! What a call may come to in place of results.

ghost use Rattle.std.specs.Prelude.{◌≡◌};
ghost use Rattle.admin_client.specs.declared.fault.AdminFault.TheVariants.{Malformed, NoMemory};

use crate::refusal::CallRefusal;
use std::alloc::AllocError;
use std::io;
use xdr::Fault;

/// Why a call gives no results.
#[derive(Clone, Copy, PartialEq, Eq)]
pub enum AdminFault {
    /// The stream can't be written or read.
    Stream,
    /// A write or a read of the stream waited for longer than it may.
    Late,
    /// The stream ends before a record is whole.
    Cut,
    /// The record is above the limit.
    TooLong,
    /// The record is no reply of RPC with results of the procedure.
    Malformed(Fault),
    /// It is the reply to another call.
    OfAnotherCall,
    /// The server refuses the call.
    Refused(CallRefusal),
    /// Memory ran out.
    NoMemory,
}

impl From<AllocError> for AdminFault {
    ghost from_gives = { λ _ fault. fault ≡ NoMemory };

    fn from(_full: AllocError) -> AdminFault {
        AdminFault::NoMemory
    }
}

impl From<Fault> for AdminFault {
    ghost from_gives = { λ unread fault. fault ≡ Malformed unread };

    fn from(unread: Fault) -> AdminFault {
        AdminFault::Malformed(unread)
    }
}

impl AdminFault {
    ghost use Rattle.admin_client.specs.Incoming.{IsFailure, IsOfStream};

    /// Why a stream can't be written or read: `Late` where it waited, else `Stream`.
    pub(crate) fn of_stream(error: &io::Error) -> AdminFault
        ensures failed { IsFailure result }
        ensures of_stream { IsOfStream result }
    {
        match error.kind() {
            io::ErrorKind::WouldBlock | io::ErrorKind::TimedOut => AdminFault::Late,
            _ => AdminFault::Stream,
        }
    }
}
