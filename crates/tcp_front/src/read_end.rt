//! Why reading ends.

ghost use Rattle.std.specs.Prelude.{◌≡◌};
ghost use Rattle.tcp_front.specs.Numbers.{end_number};

use engine_feed::StreamFault;

/// What ends the reading of a connection.
#[derive(Clone, Copy)]
pub enum ReadEnd {
    /// The input's end. A record that isn't whole by then is dropped.
    End,
    /// The stream came to a fault.
    Fault(StreamFault),
    /// The reader failed.
    ReaderFailed,
    /// Memory ran out.
    NoMemory,
    /// 2^62 records were read.
    NumbersUsed,
}

impl ReadEnd {
    /// The number by which the end is told: 0 for the input's end.
    pub fn number(self) -> u32
        ensures { result ≡ end_number self }
    {
        match self {
            ReadEnd::End => 0,
            ReadEnd::Fault(fault) => fault.number(),
            ReadEnd::ReaderFailed => 64,
            ReadEnd::NoMemory => 90,
            ReadEnd::NumbersUsed => 22,
        }
    }
}
