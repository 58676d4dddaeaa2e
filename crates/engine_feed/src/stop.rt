//! Why bytes are taken no further.

ghost use Rattle.std.specs.Prelude.{◌≡◌};

/// What stopped the taking of bytes.
#[derive(Clone, Copy)]
pub enum Stop {
    /// Nothing: all were taken.
    AllTaken,
    /// The next of them would complete a record, and the places of messages are full.
    Full,
    /// The stream came to a fault.
    Fault(StreamFault),
    /// Memory ran out.
    NoMemory,
}

/// What ends the service of a stream.
#[derive(Clone, Copy)]
pub enum StreamFault {
    /// A header brings a record above 131,072 bytes (RFC 5531, section 11).
    RecordTooLong,
    /// A record ends within the head of a call (RFC 5531, section 9).
    BadHeader,
    /// A record is no call message (RFC 5531, section 9).
    NotACall,
}

impl StreamFault {
    ghost use Rattle.engine_feed.specs.Numbers.{fault_number};

    /// The number by which the fault is told.
    pub fn number(self) -> u32
        ensures { result ≡ fault_number self }
    {
        match self {
            StreamFault::RecordTooLong => 11,
            StreamFault::BadHeader => 12,
            StreamFault::NotACall => 13,
        }
    }
}

impl Stop {
    ghost use Rattle.engine_feed.specs.Numbers.{stop_number};

    /// The number by which the stop is told.
    pub fn number(self) -> u32
        ensures { result ≡ stop_number self }
    {
        match self {
            Stop::AllTaken => 0,
            Stop::Full => 31,
            Stop::Fault(fault) => fault.number(),
            Stop::NoMemory => 90,
        }
    }
}
