//! The memory of calls that are done with, for those to come.

ghost use Rattle.std.specs.Prelude.{◌≡◌, ℕ};
ghost use Rattle.scheduler.specs.Messages.{message_at};
ghost use Rattle.granted_calls.specs.Messages.{message_of_call};

use crate::entered_call::EnteredCall;
use affinity::CallNode;
use nfs_values::Call;
use rpc_msg::BoxedCall;
use scheduler::Origin;

/// How many bytes of a WRITE's memory are kept at most.
const MOST_KEPT: usize = 8_192;

/// The memory of a call that was finished. Of what it asked, the bytes of a small WRITE alone have
/// memory of their own, for those of another.
#[derive(Drop)]
pub struct Spent {
    served: Box<EnteredCall>,
}

/// Whether a call has memory of its own that isn't kept.
fn is_large(call: &Call) -> bool {
    match call {
        Call::Write { bytes, .. } => bytes.capacity() > MOST_KEPT,
        _ => call.has_memory(),
    }
}

impl Spent {
    /// What is left of an entry's call.
    pub(crate) fn of(mut served: Box<EnteredCall>) -> Spent {
        if is_large(&served.asked.get().call) {
            served.asked.clear();
        }
        Spent { served }
    }

    /// A call that was read, with the memory that it was read into, beside which this is used
    /// again: what was read into before comes to where the call was read.
    pub(crate) fn with(
        self,
        origin: Origin,
        asked: &mut BoxedCall,
        affinity: CallNode,
    ) -> Box<EnteredCall>
        ensures { (room : ℕ) → message_of_call result.value room
            ≡ message_at origin asked.old.call asked.old.caller affinity room }
    {
        let Spent { mut served } = self;
        served.put(origin, asked, affinity);
        served
    }
}
