//! Messages that workers finish.

ghost use Rattle.std.specs.Prelude.{◌≡◌, ◌≤◌, ◌<◌, length, Some, slice_get};
ghost use Rattle.nfs_model.specs.Events.Refusals as event;
ghost use Rattle.nfs_values.specs.Moment.{moment_of};
ghost use Rattle.nfs_values.specs.Reply.{reply_of};
ghost use Rattle.desk.specs.laws.Calls.{MayFinish, HasFinished};
ghost use Rattle.desk.specs.Words.{books, machine_in, IsKept};
ghost use Rattle.engine_feed.specs.Codec.{reply_record};
ghost use Rattle.engine_feed.specs.Seen.{owed_by, layout_in, running_count, finished_message};
ghost use Rattle.engine_feed.specs.Sound.{IsAdmitted};
ghost use Rattle.engine_feed.specs.Words.{HasLeft};
ghost use Rattle.engine.specs.Connections.{Open, held_by, AreKeyed};
ghost use Rattle.engine.specs.Ending.{served_made, job_made, answer_made};
ghost use Rattle.engine.specs.Ending.{EndsAmong};
ghost use Rattle.engine.specs.Sound.{IsSoundEngine};
ghost use Rattle.engine.specs.Words.{DoesEvent, HasItsSetup};

use crate::connecting::key_of;
use crate::connection::Connection;
use crate::event::{Done, Refusal};
use crate::lending::{enter, take_back};
use crate::state::State;
use crate::worker::{Running, WorkerRun, set_run, take_run};
use affinity::CallNode;
use desk::{Desk, ParcelKinds};
use engine_feed::{Calls, OpenConnection};
use nfs_values::{Call, Caller, Moment, Reply};
use rpc_msg::tell;
use scheduler::{Message, Origin};
use service::{Outcome, ServedCall, Service};
use slab::Slab;

/// The entry of a call that ran.
fn served(
    origin: Origin,
    call: Call,
    caller: Caller,
    affinity: CallNode,
    moment: Moment,
    starved: bool,
) -> ServedCall
    ensures { result ≡ served_made origin call caller affinity moment starved }
{
    let Origin {
        connection,
        number,
        xid,
    } = origin;
    ServedCall {
        connection,
        number,
        xid,
        call,
        caller,
        affinity,
        moment,
        starved,
    }
}

/// Ends a worker's call on the desk by an entry of the history, and gives back its message.
fn end_on(
    desk: &mut Desk<Service, ParcelKinds>,
    worker: usize,
    running: Running,
    reply: &Reply,
    starved: bool,
) -> Running
    requires kept { IsKept desk.old }
    requires may { MayFinish (machine_in desk.old) (books desk.old) worker
        (job_made running starved) (answer_made reply.now) }
    ensures kept { IsKept desk.new }
    ensures finished { HasFinished (machine_in desk.old) (books desk.old) worker
        (job_made running starved) (answer_made reply.now) (books desk.new) }
    ensures running { result ≡ running }
{
    let Running { message, moment } = running;
    let Message {
        origin,
        call,
        caller,
        affinity,
        room,
    } = message;
    let served = served(origin, call, caller, affinity, moment, starved);
    enter(desk, worker, &served, reply);
    let ServedCall { call, .. } = served;
    let message = Message {
        origin,
        call,
        caller,
        affinity,
        room,
    };
    Running { message, moment }
}

/// Finishes a message that ran: its reply, as it is told, is written where its connection is open.
/// Answers how many bytes were written.
fn end_in(
    calls: &mut Calls,
    connections: &[Connection],
    slab: &mut Slab<OpenConnection>,
    running: Running,
    reply: &Reply,
    starved: bool,
) -> usize
    requires runs { 0 < running_count calls.old }
    requires admitted { IsAdmitted (layout_in calls.old) running.message }
    requires known { running.message.origin.connection.0 < length connections.now }
    requires keyed { AreKeyed connections.now slab.old }
    requires owed { (x : _) → slice_get (held_by connections.now slab.old)
        running.message.origin.connection.0 ≡ Some (Open x) →
        running.message.room ≤ owed_by x }
    requires fits { length (reply_record running.message.origin.xid (reply_of reply.now))
        ≤ running.message.room }
    ensures ends { EndsAmong calls.old connections.now slab.old running (reply_of reply.now)
        starved result calls.new slab.new }
    ensures left { HasLeft calls.old
        (finished_message running.message (moment_of running.moment) starved) calls.new }
{
    let Running { message, moment } = running;
    let key = match key_of(connections, message.origin.connection.0) {
        Some(key) => key,
        None => {
            calls.finish_unseen(message, moment, starved);
            return 0;
        }
    };
    calls.finish(message, moment, &mut slab[key], reply, starved)
}

/// Finishes the message that a worker has worked.
pub(crate) fn finish(state: &mut State, worker: usize) -> Result<Done, Refusal>
    requires { IsSoundEngine state.old }
    ensures events { DoesEvent state.old (event.Finish worker) result state.new }
    ensures setup { HasItsSetup state.old state.new }
    ensures sound { IsSoundEngine state.new }
{
    if worker >= state.workers.len() {
        return Err(Refusal::NoWork);
    }
    let (running, outcome) = match take_run(&mut state.workers, worker) {
        WorkerRun::Worked(running, outcome) => (running, outcome),
        WorkerRun::Begun(running) => {
            set_run(&mut state.workers, worker, WorkerRun::Begun(running));
            return Err(Refusal::NotWorked);
        }
        WorkerRun::Idle => return Err(Refusal::NoWork),
    };
    let connection = running.message.origin.connection;
    let (mut reply, starved) = match outcome {
        Outcome::Replied(reply) => (reply, false),
        Outcome::Starved => (Reply::Refused(nfs_values::Refusal::SystemError), true),
        Outcome::Moved(affinity) => {
            take_back(&mut state.desk, worker);
            state.calls.put_back(Message {
                affinity,
                ..running.message
            });
            return Ok(Done::PutBack);
        }
    };
    let running = end_on(&mut state.desk, worker, running, &reply, starved);
    tell(&mut reply, state.offer.handles());
    let count = end_in(
        &mut state.calls,
        &state.connections,
        &mut state.slab,
        running,
        &reply,
        starved,
    );
    drop(reply);
    Ok(Done::Written { connection, count })
}
