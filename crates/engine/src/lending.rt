//! The desk's calls at the engine's own types: what is asked of those types is proved here once.

ghost use Rattle.std.specs.Prelude.{◌≡◌, OnOk, IfErr};
ghost use Rattle.affinity.specs.Affinity.{call_node};
ghost use Rattle.affinity.specs.Tree.{IsNode};
ghost use Rattle.desk.specs.laws.Books.{IsIdle};
ghost use Rattle.desk.specs.laws.Calls.{HasBegun, MayFinish, HasFinished, MayPutBack, HasPutBack};
ghost use Rattle.desk.specs.BeginRefusal.{IsRefused};
ghost use Rattle.desk.specs.Words.{books, machine_in, IsKept};

use affinity::CallNode;
use depot::Entered;
use desk::{BeginRefusal, Desk, ParcelKinds};
use service::{Job, JobReply, Service};

/// Lends the parcels under a node to an idle worker.
pub(crate) fn lend(
    desk: &mut Desk<Service, ParcelKinds>,
    worker: usize,
    home: CallNode,
) -> Result<(), BeginRefusal>
    requires kept { IsKept desk.old }
    requires node { IsNode (books desk.old).layout (call_node home) }
    requires idle { IsIdle (books desk.old) worker }
    ensures kept { IsKept desk.new }
    ensures begun { OnOk result
        (HasBegun (books desk.old) worker (call_node home) (books desk.new)) }
    ensures refused { IfErr result (IsRefused (books desk.old) (call_node home)) }
    ensures same { IfErr result (λ refusal. books desk.new ≡ books desk.old) }
{
    desk.begin(worker, home)
}

/// Ends a worker's call by an entry of the history.
pub(crate) fn enter<C: Entered<Job>, A: Entered<JobReply>>(
    desk: &mut Desk<Service, ParcelKinds>,
    worker: usize,
    call: &C,
    reply: &A,
)
    requires kept { IsKept desk.old }
    requires may { MayFinish (machine_in desk.old) (books desk.old) worker
        (C.entered call.now) (A.entered reply.now) }
    ensures kept { IsKept desk.new }
    ensures finished { HasFinished (machine_in desk.old) (books desk.old) worker
        (C.entered call.now) (A.entered reply.now) (books desk.new) }
{
    desk.finish(worker, call, reply);
}

/// Ends a worker's call without an entry.
pub(crate) fn take_back(desk: &mut Desk<Service, ParcelKinds>, worker: usize)
    requires kept { IsKept desk.old }
    requires may { MayPutBack (books desk.old) worker }
    ensures kept { IsKept desk.new }
    ensures back { HasPutBack (books desk.old) worker (books desk.new) }
{
    desk.put_back(worker);
}
