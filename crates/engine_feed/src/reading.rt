//! Faults of records as faults of streams.

ghost use Rattle.std.specs.Prelude.{◌≡◌};
ghost use Rattle.engine_feed.specs.Records.{fault_of};

use crate::stop::StreamFault;
use rpc_msg::RecordFault;

/// The fault of a stream that a record's fault is.
pub fn stream_fault(fault: RecordFault) -> StreamFault
    ensures { result ≡ fault_of fault }
{
    match fault {
        RecordFault::BadHeader => StreamFault::BadHeader,
        RecordFault::NotACall => StreamFault::NotACall,
    }
}
