//! Entries that are to be made, and the answers that follow.

ghost use Rattle.std.specs.Prelude.{◌≡◌};
ghost use Rattle.nfs_values.specs.Reply.{reply_of};
ghost use Rattle.outboxes.specs.Boxes.{addressed};
ghost use Rattle.outboxes.specs.Messages as replies;
ghost use Rattle.granted_calls.specs.Links.{HasRoom, IsEntryFor};
ghost use Rattle.granted_calls.specs.Telling.{answer_told};

use crate::answer::Answer;
use crate::entered_call::EnteredCall;
use crate::envelope::Envelope;
use crate::spent::Spent;
use nfs_values::{Moment, Reply};
use outboxes::Room;
use rpc_msg::{HandleForm, tell};
use scheduler::Origin;

/// The call of an entry, and what its answer needs.
pub(crate) struct Entry {
    pub(crate) origin: Origin,
    pub(crate) served: Box<EnteredCall>,
    pub(crate) room: Room,
}

/// The entry of a message's call.
pub(crate) fn enter(message: Envelope, moment: Moment, starved: bool) -> Entry
    ensures { IsEntryFor message moment starved result }
{
    let origin = message.origin();
    let Envelope { mut served, room } = message;
    served.stamp(moment, starved);
    Entry {
        origin,
        served,
        room,
    }
}

/// The answer of an entry, of which this reply was told, with its handles in a form.
pub(crate) fn answered(entry: Entry, told: &mut Reply, handles: HandleForm) -> Answer
    requires { HasRoom entry told.old }
    ensures { result ≡ answer_told handles (addressed entry.origin.connection.0
        (replies.message entry.origin.xid (reply_of told.old))) }
{
    let Entry {
        origin,
        served,
        room,
    } = entry;
    let spent = Spent::of(served);
    tell(told, handles);
    Answer::new(origin.connection, origin.xid, told, room, spent)
}
