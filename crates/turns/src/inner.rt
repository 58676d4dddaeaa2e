//! An inner call on a seat, from begin to end.

ghost use Rattle.std.specs.Prelude.{◌≡◌, IfOk, IfErr};
ghost use Rattle.depot.specs.Grants.{IsRefused};
ghost use Rattle.depot.specs.Words.{view, splits_left, IsNodeOf, IsSeatHere};
ghost use Rattle.desk.specs.Any.{node_lent};
ghost use Rattle.filer_state.specs.state.Jobs.{inner_volume};
ghost use Rattle.service.specs.Inner.{IsInner};
ghost use Rattle.service.specs.Jobs.{batch_reply_of, inner_of};
ghost use Rattle.service.specs.Works.{batch_call_of, batch_hand_of};
ghost use Rattle.turns.specs.Carries.{node_tried, refusal_by, MayCarry, HasCarried, HasRunInner};
ghost use Rattle.turns.specs.Stocks.{IsLook};
ghost use Rattle.granted_calls.specs.Filers.{layout_in, verifier_in, IsReady};

use crate::stock::{Enough, Look, NoStock, told_by};
use crate::tend::{Carried, TendRefusal};
use affinity::Affinity;
use depot::{GrantRefusal, Seat};
use desk::{NodeGrant, WorkOn, begin_node, finish_node, put_back_node, work_on_node};
use filer_state::Files;
use granted_calls::Filer;
use parcels::{Hand, LogicalNode, Node, Parcel, RangeNode};
use service::{
    BatchInHand, BatchOutcome, BatchReply, BatchWork, HandWork, InnerCall, LogicalWork, RangeWork,
    Service, Undone,
};

/// The node at which an inner call runs.
fn node_of(call: InnerCall) -> Affinity
    ensures { result ≡ node_tried (inner_of call) }
{
    match call {
        InnerCall::Fetch { volume, range } => Affinity::Range {
            volume: volume.0,
            range,
        },
        InnerCall::Free { volume, range } => Affinity::Range {
            volume: volume.0,
            range,
        },
        InnerCall::Deliver { volume } => Affinity::VolumeLogical(volume.0),
        InnerCall::Cull { volume } => Affinity::VolumeLogical(volume.0),
        InnerCall::Survey { volume } => Affinity::VolumeVbn(volume.0),
    }
}

/// The volume that it is of.
pub(crate) fn volume_of(call: InnerCall) -> u32
    ensures { result ≡ inner_volume (inner_of call) }
{
    match call {
        InnerCall::Fetch { volume, range: _ } => volume.0,
        InnerCall::Free { volume, range: _ } => volume.0,
        InnerCall::Deliver { volume } => volume.0,
        InnerCall::Cull { volume } => volume.0,
        InnerCall::Survey { volume } => volume.0,
    }
}

/// What a tend answers where the depot refused.
fn refused(refusal: GrantRefusal) -> TendRefusal
    ensures { result ≡ refusal_by refusal }
{
    match refusal {
        GrantRefusal::Busy { node, word } => TendRefusal::Busy { node, word },
        GrantRefusal::Worn => TendRefusal::Worn,
    }
}

/// What was granted, what an inner call that ran on it came to, and what is told of a stock then.
struct InnerRan<G> {
    grant: G,
    outcome: BatchOutcome,
    told: Option<bool>,
}

/// Begins an inner call on its node, which is of this kind, does its work there, and looks at what
/// that left.
fn run_inner<
    N: Node<Parcel<Files>>,
    W: WorkOn<Parcel<Files>, N, BatchReply, Undone> + HandWork,
    S: WorkOn<Parcel<Files>, N, Enough, NoStock> + Drop,
>(
    filer: &Filer,
    seat: &mut Seat<Service>,
    call: InnerCall,
    work: W,
    look: S,
) -> Result<InnerRan<NodeGrant<Parcel<Files>, N>>, (W, GrantRefusal)>
    requires seat { IsSeatHere filer.now.depot seat.old }
    requires runs { IsInner batch_reply_of (W.asks work) (W.does work)
        (inner_of call) (W.carried work) }
    requires looks { IsLook (S.asks look) (S.does look) }
    requires may { MayCarry (layout_in filer.now) (view seat.old)
        (inner_of call) (W.carried work) }
    requires kind { IsNodeOf (layout_in filer.now) N.KIND (node_tried (inner_of call)) }
    ensures seat { IsSeatHere filer.now.depot seat.new }
    ensures splits { splits_left seat.new ≡ splits_left seat.old }
    ensures ran { let L = layout_in filer.now in IfOk result (λ ran.
        HasRunInner L (view seat.old) (inner_of call) (W.carried work) ran.outcome ran.told
        (node_lent L ran.grant) (view seat.new)) }
    ensures refused { IfErr result (λ back. IsRefused (layout_in filer.now)
        (view seat.old) (node_tried (inner_of call)) back.1 (view seat.new)) }
    ensures back { IfErr result (λ back. back.0 ≡ work) }
{
    let mut grant = match begin_node::<Service, N>(&filer.depot, seat, node_of(call)) {
        Ok(grant) => grant,
        Err(refusal) => return Err((work, refusal)),
    };
    let layout = filer.depot.layout();
    let outcome = work_on_node::<Parcel<Files>, N, BatchReply, Undone, W>(layout, &mut grant, work);
    let looked = work_on_node::<Parcel<Files>, N, Enough, NoStock, S>(layout, &mut grant, look);
    let told = told_by(looked);
    Ok(InnerRan {
        grant,
        outcome,
        told,
    })
}

/// Begins an inner call on its node, which is of this kind, does its work, and ends it.
#[inline(never)]
fn carry_on<
    N: Node<Parcel<Files>>,
    W: WorkOn<Parcel<Files>, N, BatchReply, Undone> + HandWork,
    S: WorkOn<Parcel<Files>, N, Enough, NoStock> + Drop,
>(filer: &Filer, seat: &mut Seat<Service>, call: InnerCall, work: W, look: S) -> Carried
    requires seat { IsSeatHere filer.now.depot seat.old }
    requires ready { IsReady (layout_in filer.now) (verifier_in filer.now) (view seat.old) }
    requires runs { IsInner batch_reply_of (W.asks work) (W.does work)
        (inner_of call) (W.carried work) }
    requires looks { IsLook (S.asks look) (S.does look) }
    requires may { MayCarry (layout_in filer.now) (view seat.old)
        (inner_of call) (W.carried work) }
    requires kind { IsNodeOf (layout_in filer.now) N.KIND (node_tried (inner_of call)) }
    ensures seat { IsSeatHere filer.now.depot seat.new }
    ensures splits { splits_left seat.new ≡ splits_left seat.old }
    ensures ready { IsReady (layout_in filer.now) (verifier_in filer.now) (view seat.new) }
    ensures carried { HasCarried (layout_in filer.now)
        (view seat.old) (inner_of call) (W.carried work) result (view seat.new) }
{
    let InnerRan {
        grant,
        outcome,
        told,
    } = match run_inner::<N, W, S>(filer, seat, call, work, look) {
        Ok(ran) => ran,
        Err((work, refusal)) => return Carried::Refused(work.into_hand(), refused(refusal)),
    };
    match outcome {
        Ok(reply) => {
            finish_node::<Service, N, InnerCall, BatchReply>(
                &filer.depot,
                seat,
                grant,
                &call,
                &reply,
            );
            Carried::Done(reply, told)
        }
        Err(Undone::NoSuchRange) => {
            put_back_node::<Service, N>(&filer.depot, seat, grant);
            Carried::Refused(BatchInHand::new(Hand::Empty), TendRefusal::NoSuchRange)
        }
        Err(Undone::NoMemory(hand)) => {
            put_back_node::<Service, N>(&filer.depot, seat, grant);
            Carried::Refused(hand, TendRefusal::NoMemory)
        }
    }
}

/// Begins an inner call, does its work, which is of this call, and ends it.
pub(crate) fn carry(
    filer: &Filer,
    seat: &mut Seat<Service>,
    call: InnerCall,
    work: BatchWork,
) -> Carried
    requires seat { IsSeatHere filer.now.depot seat.old }
    requires ready { IsReady (layout_in filer.now) (verifier_in filer.now) (view seat.old) }
    requires call { inner_of call ≡ batch_call_of work }
    requires may { MayCarry (layout_in filer.now) (view seat.old)
        (inner_of call) (batch_hand_of work) }
    ensures seat { IsSeatHere filer.now.depot seat.new }
    ensures splits { splits_left seat.new ≡ splits_left seat.old }
    ensures ready { IsReady (layout_in filer.now) (verifier_in filer.now) (view seat.new) }
    ensures carried { HasCarried (layout_in filer.now)
        (view seat.old) (inner_of call) (batch_hand_of work) result (view seat.new) }
{
    match work {
        BatchWork::Range(work) => {
            carry_on::<RangeNode, RangeWork, Look>(filer, seat, call, work, Look)
        }
        BatchWork::Logical(work) => {
            carry_on::<LogicalNode, LogicalWork, Look>(filer, seat, call, work, Look)
        }
    }
}
