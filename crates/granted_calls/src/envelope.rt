//! Messages in memory of their own.

ghost use Rattle.std.specs.Prelude.{◌≡◌, ℕ, IfOk};
ghost use Rattle.affinity.specs.Affinity.{call_affinity};
ghost use Rattle.scheduler.specs.Messages.{message_at};
ghost use Rattle.granted_calls.specs.Messages.{message_of_call, readdressed};

use crate::entered_call::EnteredCall;
use crate::shared_waiting::Fitting;
use crate::spent::Spent;
use affinity::{Affinity, CallNode, Layout};
use nfs_values::{Call, Caller};
use outboxes::Room;
use rpc_msg::BoxedCall;
use scheduler::Origin;
use std::alloc::{AllocError, Global};
use std::marker::Model;
use std::mem;

/// A message. What it asks stands where it was read, as the entry of its call will have it: it is
/// never moved from there, and what travels through queues and turns is small.
#[derive(Drop)]
pub struct Envelope {
    pub(crate) served: Box<EnteredCall>,
    pub(crate) room: Room,
}

impl Model for Envelope {
    ghost use Rattle.granted_calls.specs.Messages.{message_of_call, Message};

    ghost Value = { Message };

    ghost view = { λ e. message_of_call e.served.value e.room };
}

impl Fitting<Layout> for Envelope {
    ghost use Rattle.granted_calls.specs.Messages.{Fits};

    ghost fits = { Fits };
}

/// A call that was read, with the memory that it was read into, in whose place new memory comes.
#[inline(never)] // else what is moved takes room in others
fn entered_anew(
    alloc: Global,
    origin: Origin,
    asked: &mut BoxedCall,
    affinity: CallNode,
) -> Result<Box<EnteredCall>, AllocError>
    ensures { IfOk result (λ served. (room : ℕ) → message_of_call served.value room
        ≡ message_at origin asked.old.call asked.old.caller affinity room) }
{
    let fresh = BoxedCall::blank(alloc)?;
    let read = mem::replace(asked, fresh);
    match Box::new(alloc, EnteredCall::new(origin, read, affinity)) {
        Ok(served) => Ok(served),
        Err(refused) => {
            drop(refused);
            Err(AllocError)
        }
    }
}

impl Envelope {
    /// A message with room for its reply. It takes the memory that its call was read into, in whose
    /// place that of a call that was finished comes, or new memory.
    pub fn new(
        alloc: Global,
        spent: Option<Spent>,
        origin: Origin,
        asked: &mut BoxedCall,
        affinity: CallNode,
        room: Room,
    ) -> Result<Envelope, AllocError>
        ensures { IfOk result (λ envelope. envelope
            ≡ message_at origin asked.old.call asked.old.caller affinity room) }
    {
        let served = match spent {
            Some(spent) => spent.with(origin, asked, affinity),
            None => entered_anew(alloc, origin, asked, affinity)?,
        };
        Ok(Envelope { served, room })
    }

    /// The record that its call came in.
    pub fn origin(&self) -> Origin
        ensures { result ≡ self.now.origin }
    {
        let served = &*self.served;
        Origin {
            connection: served.connection,
            number: served.number,
            xid: served.xid,
        }
    }

    /// What it tries.
    pub(crate) fn affinity(&self) -> CallNode
        ensures { result ≡ self.now.affinity }
    {
        self.served.affinity
    }

    /// What it tries, as one of all nodes of the tree.
    pub(crate) fn node(&self) -> Affinity
        ensures { result ≡ call_affinity self.now.affinity }
    {
        self.served.affinity.node()
    }

    /// Its call, and whom that acts for.
    pub(crate) fn asked(&self) -> (&Call, &Caller)
        ensures call { result.0.now ≡ self.now.call }
        ensures caller { result.1.now ≡ self.now.caller }
    {
        let asked = self.served.asked.get();
        (&asked.call, &asked.caller)
    }

    /// It tries another node.
    pub(crate) fn readdress(&mut self, to: CallNode)
        ensures { self.new ≡ readdressed to self.old }
    {
        self.served.affinity = to;
    }
}
