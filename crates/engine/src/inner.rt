//! Inner calls, which workers make with their hands: each begins, runs and ends at once.

ghost use Rattle.std.specs.Prelude.{◌≡◌, IfOk, IfErr, MatchResult, None, Some};
ghost use Rattle.std.specs.List.{slice_get};
ghost use Rattle.affinity.specs.Affinity.{affinity_of, kind_of};
ghost use Rattle.affinity.specs.Layout.{layout_of};
ghost use Rattle.nfs_model.specs.Parts.{Hand as HandSeen};
ghost use Rattle.filer_state.specs.state.Jobs as jobs;
ghost use Rattle.filer_state.specs.state.Jobs.{inner_node};
ghost use Rattle.desk.specs.Words.{books, IsKept};
ghost use Rattle.service.specs.declared.job.JobReply.TheVariants.{Moved};
ghost use Rattle.service.specs.Inner.{IsInner};
ghost use Rattle.service.specs.Jobs.{inner_of, batch_reply_of, counts_reply_of, job_reply_of};
ghost use Rattle.service.specs.Works.{batch_call_of, batch_hand_of};
ghost use Rattle.engine.specs.declared.worker.WorkerRun.TheVariants.{Idle};
ghost use Rattle.engine.specs.Inner.{MayMake, IsMade, IsRefusedFor, hand_after, refusal_by};
ghost use Rattle.engine.specs.Inner.{call_asked, told_as, FitsAsked, MayAsk, HasAsked};
ghost use Rattle.engine.specs.Inner.{MayTend, Tends};
ghost use Rattle.engine.specs.Seen.{done_of, setup_in};
ghost use Rattle.engine.specs.Sound.{IsSoundEngine};
ghost use Rattle.engine.specs.Words.{HasItsSetup};
ghost use Rattle.engine.specs.Workers.{worker_with};

use crate::event::{Done, Refusal};
use crate::state::State;
use crate::worker::{set_hand, take_hand};
use affinity::{Affinity, Layout};
use depot::Entered;
use desk::{BeginRefusal as Refused, Desk, ParcelKinds, WorkOn};
use filer_state::Files;
use nfs_laws::laws::batches_are_of_one_range;
use nfs_values::VolumeNumber;
use parcels::{Hand, LogicalNode, Node, Parcel, RangeNode, VbnNode};
use service::{
    BatchInHand, BatchReply, BatchWork, FreeCounts, HandWork, InnerCall, JobReply, LogicalWork,
    RangeWork, Service, SurveyWork, Undone, put_down,
};

/// What an idle worker is asked to do with its hand.
#[derive(Clone, Copy)]
pub(crate) enum Asked {
    /// Free blocks of a range come into the hand, which is empty.
    Fetch { volume: VolumeNumber, range: u32 },
    /// Dead blocks come into the hand, which is empty.
    Cull { volume: VolumeNumber },
    /// What is in the hand is put down.
    PutDown,
}

/// The node at which an inner call runs.
fn node_of(call: InnerCall) -> Affinity
    ensures { affinity_of result ≡ inner_node (inner_of call) }
{
    match call {
        InnerCall::Fetch { volume, range } | InnerCall::Free { volume, range } => Affinity::Range {
            volume: volume.0,
            range,
        },
        InnerCall::Deliver { volume } | InnerCall::Cull { volume } => {
            Affinity::VolumeLogical(volume.0)
        }
        InnerCall::Survey { volume } => Affinity::VolumeVbn(volume.0),
    }
}

/// Why an inner call is refused, where the desk refused it.
fn refusal_of(refusal: Refused) -> Refusal
    ensures { result ≡ refusal_by refusal }
{
    match refusal {
        Refused::Taken => Refusal::Busy,
        Refused::Worn => Refusal::Worn,
    }
}

/// Makes an inner call of an idle worker on its node, which is of this kind: its reply, or why it
/// was not made, with the hand as it was.
fn make_on<
    N: Node<Parcel<Files>>,
    A: Entered<JobReply>,
    W: WorkOn<Parcel<Files>, N, A, Undone> + HandWork,
>(
    desk: &mut Desk<Service, ParcelKinds>,
    worker: usize,
    call: InnerCall,
    work: W,
) -> Result<A, (Refusal, BatchInHand)>
    requires kept { IsKept desk.old }
    requires runs { IsInner (λ reply. job_reply_of (A.entered reply))
        (W.asks work) (W.does work) (inner_of call) (W.carried work) }
    requires may { MayMake (books desk.old) worker (inner_of call) (W.carried work) }
    requires kind { kind_of (inner_node (inner_of call)) ≡ N.KIND }
    ensures kept { IsKept desk.new }
    ensures made { IfOk result (λ reply. IsMade (books desk.old)
        (inner_of call) (W.carried work) (A.entered reply) (books desk.new)) }
    ensures refused { IfErr result (λ r. IsRefusedFor (books desk.old) (inner_of call) r.0) }
    ensures hand { IfErr result (λ r. r.1 ≡ W.carried work) }
    ensures same { IfErr result (λ r. books desk.new ≡ books desk.old) }
{
    let made = desk.make::<N, InnerCall, A, Undone, W>(worker, node_of(call), &call, work);
    let outcome = match made {
        Ok(outcome) => outcome,
        Err((work, refusal)) => return Err((refusal_of(refusal), work.into_hand())),
    };
    match outcome {
        Ok(reply) => Ok(reply),
        Err(Undone::NoSuchRange) => Err((Refusal::NoSuchRange, BatchInHand::new(Hand::Empty))),
        Err(Undone::NoMemory(hand)) => Err((Refusal::NoMemory, hand)),
    }
}

/// Makes an inner call of an idle worker that moves a batch: its reply, or why it was not made,
/// with the hand as it was.
fn make(
    desk: &mut Desk<Service, ParcelKinds>,
    worker: usize,
    work: BatchWork,
) -> Result<BatchReply, (Refusal, BatchInHand)>
    requires kept { IsKept desk.old }
    requires may { MayMake (books desk.old) worker (batch_call_of work) (batch_hand_of work) }
    ensures kept { IsKept desk.new }
    ensures made { IfOk result (λ reply. IsMade (books desk.old)
        (batch_call_of work) (batch_hand_of work) (Moved reply) (books desk.new)) }
    ensures refused { IfErr result (λ r.
        IsRefusedFor (books desk.old) (batch_call_of work) r.0) }
    ensures hand { IfErr result (λ r. r.1 ≡ batch_hand_of work) }
    ensures same { IfErr result (λ r. books desk.new ≡ books desk.old) }
{
    let call = work.call();
    match work {
        BatchWork::Range(work) => {
            make_on::<RangeNode, BatchReply, RangeWork>(desk, worker, call, work)
        }
        BatchWork::Logical(work) => {
            make_on::<LogicalNode, BatchReply, LogicalWork>(desk, worker, call, work)
        }
    }
}

/// What is in the hand after an inner call with this reply, and what the engine answers.
fn told(reply: BatchReply) -> (BatchInHand, Done)
    ensures hand { result.0 ≡ hand_after (batch_reply_of reply) }
    ensures done { done_of result.1 ≡ told_as (batch_reply_of reply) }
{
    match reply {
        BatchReply::Took(hand) => {
            let count = hand.count();
            (hand, Done::InHand { count })
        }
        BatchReply::Gave(hand) => {
            let count = hand.count();
            (BatchInHand::new(Hand::Empty), Done::PutDown { count })
        }
    }
}

/// The inner call that is asked for, with what was in the hand; or the hand, where there is none.
fn work_of(layout: &Layout, hand: BatchInHand, asked: Asked) -> Result<BatchWork, BatchInHand>
    requires { FitsAsked asked hand }
    ensures call { MatchResult result
        (λ work. call_asked (layout_of layout.now) asked hand ≡ Some (batch_call_of work))
        (λ back. call_asked (layout_of layout.now) asked hand ≡ None) }
    ensures hand { MatchResult result (λ work. batch_hand_of work ≡ hand) (λ back. back ≡ hand) }
{
    match asked {
        Asked::Fetch { volume, range } => {
            Ok(BatchWork::Range(RangeWork::Fetch { volume, range }))
        }
        Asked::Cull { volume } => Ok(BatchWork::Logical(LogicalWork::Cull { volume })),
        Asked::PutDown => put_down(layout, hand),
    }
}

/// Makes the inner call that is asked of an idle worker, with what is in its hand. Where it is
/// refused, nothing changes.
pub(crate) fn tend(state: &mut State, worker: usize, asked: Asked) -> Result<Done, Refusal>
    requires sound { IsSoundEngine state.old }
    requires may { MayAsk state.old worker asked }
    ensures tends { (hand : HandSeen)
        → slice_get state.old.workers.items worker ≡ Some (worker_with Idle hand)
        → HasAsked state.old worker (call_asked (setup_in state.old).layout asked hand)
        result state.new }
    ensures setup { HasItsSetup state.old state.new }
    ensures sound { IsSoundEngine state.new }
{
    batches_are_of_one_range();
    let hand = take_hand(&mut state.workers, worker);
    let work = match work_of(state.calls.layout(), hand, asked) {
        Ok(work) => work,
        Err(hand) => {
            set_hand(&mut state.workers, worker, hand);
            return Err(Refusal::NoWork);
        }
    };
    match make(&mut state.desk, worker, work) {
        Ok(reply) => {
            let (hand, done) = told(reply);
            set_hand(&mut state.workers, worker, hand);
            Ok(done)
        }
        Err((refusal, hand)) => {
            set_hand(&mut state.workers, worker, hand);
            Err(refusal)
        }
    }
}

/// What an engine answers to a survey.
fn surveyed(told: FreeCounts) -> Done
    ensures { done_of result ≡ told_as (counts_reply_of told) }
{
    let FreeCounts { counts } = told;
    Done::Surveyed { counts }
}

/// Tells an idle worker with an empty hand how many blocks of each range in use are free. Where it
/// is refused, nothing changes.
pub(crate) fn count_free(
    state: &mut State,
    worker: usize,
    volume: VolumeNumber,
) -> Result<Done, Refusal>
    requires sound { IsSoundEngine state.old }
    requires may { MayTend state.old worker (jobs.Survey volume.0) }
    ensures tends { Tends state.old worker (jobs.Survey volume.0) result state.new }
    ensures setup { HasItsSetup state.old state.new }
    ensures sound { IsSoundEngine state.new }
{
    batches_are_of_one_range();
    let alloc = state.alloc;
    let work = SurveyWork { alloc, volume };
    let call = InnerCall::Survey { volume };
    match make_on::<VbnNode, FreeCounts, SurveyWork>(&mut state.desk, worker, call, work) {
        Ok(told) => Ok(surveyed(told)),
        Err((refusal, _hand)) => Err(refusal),
    }
}
