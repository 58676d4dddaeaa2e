//! Calls as their entries have them.

ghost use Rattle.std.specs.Prelude.{◌≡◌, ℕ};
ghost use Rattle.scheduler.specs.Messages.{message_at};
ghost use Rattle.granted_calls.specs.Messages.{message_of_call};
ghost use Rattle.granted_calls.specs.Served.{served_of_message};

use affinity::CallNode;
use depot::Entered;
use nfs_values::{ConnectionNumber, Moment};
use rpc_msg::BoxedCall;
use scheduler::Origin;
use service::Job;
use std::marker::Model;
use std::mem;

/// A call that a record asked for, as its entry has it. What it asks stands where it was read.
#[derive(Drop)]
pub(crate) struct EnteredCall {
    pub(crate) connection: ConnectionNumber,
    pub(crate) number: usize,
    pub(crate) xid: u32,
    pub(crate) asked: BoxedCall,
    pub(crate) affinity: CallNode,
    moment: Moment,
    starved: bool,
}

impl Model for EnteredCall {
    ghost use Rattle.service.specs.declared.job.ServedCall.{ServedCall};
    ghost use Rattle.granted_calls.specs.Messages.{served_as};

    ghost Value = { ServedCall };

    ghost view = { λ e. served_as e.connection e.number e.xid e.asked e.affinity e.moment
        e.starved };
}

impl Entered<Job> for EnteredCall {
    ghost use Rattle.service.specs.declared.job.Job.TheVariants.{Serve};

    ghost entered = { λ call. Serve call };
}

impl EnteredCall {
    /// A call that was read of a record, which tries a node.
    pub(crate) fn new(origin: Origin, asked: BoxedCall, affinity: CallNode) -> EnteredCall
        ensures { (room : ℕ) → message_of_call result room
            ≡ message_at origin asked.call asked.caller affinity room }
    {
        EnteredCall {
            connection: origin.connection,
            number: origin.number,
            xid: origin.xid,
            asked,
            affinity,
            moment: Moment::START,
            starved: false,
        }
    }

    /// Puts a call that was read in place of one that was finished. The memory of that one comes to
    /// where the other was, for one to be read.
    pub(crate) fn put(&mut self, origin: Origin, asked: &mut BoxedCall, affinity: CallNode)
        ensures { (room : ℕ) → message_of_call self.new room
            ≡ message_at origin asked.old.call asked.old.caller affinity room }
    {
        self.connection = origin.connection;
        self.number = origin.number;
        self.xid = origin.xid;
        mem::swap(&mut self.asked, asked);
        self.affinity = affinity;
    }

    /// When the call of the entry ran, and whether memory ran out.
    pub(crate) fn stamp(&mut self, moment: Moment, starved: bool)
        ensures { (room : ℕ)
            → self.new ≡ served_of_message (message_of_call self.old room) moment starved }
    {
        self.moment = moment;
        self.starved = starved;
    }
}
