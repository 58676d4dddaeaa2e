//! Why a stream is given up.

ghost use Rattle.std.specs.Prelude.{◌≡◌};

/// Why a record is neither answered nor refused.
#[derive(Clone, Copy)]
pub enum RecordFault {
    /// The head of the call isn't all there.
    BadHeader = 12,
    /// The message is no call.
    NotACall = 13,
}

impl RecordFault {
    ghost use Rattle.rpc_msg.specs.Seen.{fault_number};

    /// The number by which a fault is told, 12 or 13.
    pub fn number(self) -> u32
        ensures { result ≡ fault_number self }
    {
        self as u32
    }
}
