//! Messages one after the other under one grant.

ghost use Rattle.std.specs.Prelude.{◌≡◌, ◌-◌, Some, IfSome};
ghost use Rattle.affinity.specs.Affinity.{call_affinity};
ghost use Rattle.depot.specs.Words.{view, splits_left, IsNodeOf, IsSeatHere};
ghost use Rattle.desk.specs.Any.{node_lent};
ghost use Rattle.granted_calls.specs.shared_waiting.Passes.{known, IsOf};
ghost use Rattle.granted_calls.specs.Chains.{chained_by, left_standing, turns_at_most};
ghost use Rattle.granted_calls.specs.Chains.{HasDoneFew, HasServedOn, IsPicked};
ghost use Rattle.granted_calls.specs.Links.{chained_so, kept_of, HasChained, Stands};
ghost use Rattle.granted_calls.specs.Messages.{IsPlaced};
ghost use Rattle.granted_calls.specs.Telling.{TookTold};
ghost use Rattle.granted_calls.specs.Served.{HasShareOf, Standing};
ghost use Rattle.granted_calls.specs.Filers.{layout_in, layout_known, verifier_in, IsReady};

use crate::chained::{AnswerSink, Chained, Hint};
use crate::envelope::Envelope;
use crate::granted::begin_on;
use crate::linking::{Link, Tried, end_on, has_eight, link_on, try_on};
use crate::shared::Filer;
use crate::shared_waiting::{Pass, SharedWaiting};
use crate::telling::forget;
use crate::turned::Gate;
use affinity::{CallNode, Layout};
use depot::{GrantRefusal, Seat};
use desk::{NodeGrant, ParcelKinds, TaskNode};
use filer_state::Files;
use nfs_values::{Moment, Reply};
use parcels::{AggregateNode, LogicalNode, Parcel, SerialNode, StripeNode, VolumeNode};
use rpc_msg::{HandleForm, replies_fit, servers_are_roomy};
use service::{Service, starved};
use std::sync::Wait;

/// What is kept of messages that were tried one after the other, and what came of them.
pub struct ServedAll {
    pub kept: Option<Envelope>,
    pub chained: Chained,
}

/// What is told where the depot refused.
fn refused(refusal: GrantRefusal) -> Chained
    ensures { result ≡ chained_by refusal }
{
    match refusal {
        GrantRefusal::Busy { node, word } => Chained::Busy { node, word },
        GrantRefusal::Worn => Chained::Worn,
    }
}

/// Runs the call of a message on what was granted, and the next ones while they try the same node,
/// `most` in all at most. The last of them is still to be ended.
fn chain<N: TaskNode<Parcel<Files>, ParcelKinds>, R: Wait, G: Gate, H: Hint, S: AnswerSink>(
    filer: &Filer,
    seat: &mut Seat<Service>,
    queue: &SharedWaiting<Envelope, Layout>,
    rt: &R,
    pass: &mut Pass<Envelope, Layout>,
    grant: &mut NodeGrant<Parcel<Files>, N>,
    message: Envelope,
    moment: Moment,
    gate: &G,
    hint: &H,
    most: usize,
    told: &mut Reply,
    handles: HandleForm,
    sink: &mut S,
) -> Tried
    requires seat { IsSeatHere filer.now.depot seat.old }
    requires of { IsOf queue.now pass.old }
    requires layout { layout_known (known pass.old) ≡ Some (layout_in filer.now) }
    requires placed { IsPlaced (layout_in filer.now) message }
    requires stands { let L = layout_in filer.now in (s : Standing)
        × Stands L (verifier_in filer.now) s message (known pass.old) (node_lent L grant.old)
        (view seat.old) }
    ensures seat { IsSeatHere filer.now.depot seat.new }
    ensures splits { splits_left seat.new ≡ splits_left seat.old }
    ensures of { IsOf queue.now pass.new }
    ensures share { HasShareOf (known pass.old) (known pass.new) }
    ensures few { HasDoneFew (most - 1) (view seat.old) (view seat.new) }
    ensures placed { IfSome (kept_of result) (IsPlaced (layout_in filer.now)) }
    ensures chained { let L = layout_in filer.now in (s : Standing)
        → Stands L (verifier_in filer.now) s message (known pass.old) (node_lent L grant.old)
        (view seat.old)
        → HasChained (TookTold handles S.took) L (verifier_in filer.now) s moment sink.old
        result told.new (known pass.new) (node_lent L grant.new) (view seat.new) sink.new }
{
    let mut message = message;
    for _link in 1..most {
        match link_on::<N, R, G, H, S>(
            filer, seat, queue, rt, pass, grant, message, moment, gate, hint, told, handles, sink,
        ) {
            Link::On(next) => message = next,
            Link::Over(tried) => return tried,
        }
    }
    try_on::<N, G>(filer, grant, message, moment, gate, told)
}

/// Whether the last of some messages is finished.
fn ended_by(tried: &Tried) -> Chained
    ensures { result ≡ chained_so tried.now }
{
    match tried {
        Tried::Moved(_message, _affinity) => Chained::Moved,
        Tried::Entered(_entry, _next) => Chained::Done,
    }
}

/// Begins the call of a message on what it tries, a node of this kind, runs it, and ends it; and so
/// with the next messages under the same grant, while they try the same node.
#[inline(never)]
fn run_messages_on<
    N: TaskNode<Parcel<Files>, ParcelKinds>,
    R: Wait,
    G: Gate,
    H: Hint,
    S: AnswerSink,
>(
    filer: &Filer,
    seat: &mut Seat<Service>,
    queue: &SharedWaiting<Envelope, Layout>,
    rt: &R,
    pass: &mut Pass<Envelope, Layout>,
    message: Envelope,
    moment: Moment,
    gate: &G,
    hint: &H,
    most: usize,
    handles: HandleForm,
    sink: &mut S,
) -> ServedAll
    requires seat { IsSeatHere filer.now.depot seat.old }
    requires ready { IsReady (layout_in filer.now) (verifier_in filer.now) (view seat.old) }
    requires of { IsOf queue.now pass.old }
    requires layout { layout_known (known pass.old) ≡ Some (layout_in filer.now) }
    requires placed { IsPlaced (layout_in filer.now) message }
    requires kind { IsNodeOf (layout_in filer.now) N.KIND (call_affinity message.affinity) }
    ensures seat { IsSeatHere filer.now.depot seat.new }
    ensures splits { splits_left seat.new ≡ splits_left seat.old }
    ensures ready { IsReady (layout_in filer.now) (verifier_in filer.now) (view seat.new) }
    ensures of { IsOf queue.now pass.new }
    ensures share { HasShareOf (known pass.old) (known pass.new) }
    ensures few { HasDoneFew (turns_at_most most) (view seat.old) (view seat.new) }
    ensures placed { IfSome result.kept (IsPlaced (layout_in filer.now)) }
    ensures served { (s : Standing)
        → IsPicked s (view seat.old) (known pass.old) message
        → HasServedOn (TookTold handles S.took) (layout_in filer.now) s moment sink.old
        result.chained sink.new (left_standing (view seat.new) (known pass.new) result.kept) }
{
    replies_fit();
    servers_are_roomy();
    has_eight(filer.verifier.0);
    let mut grant = match begin_on::<N, G>(filer, seat, &message, gate) {
        Ok(grant) => grant,
        Err(refusal) => {
            return ServedAll {
                kept: Some(message),
                chained: refused(refusal),
            };
        }
    };
    let mut told = starved();
    let tried = chain::<N, R, G, H, S>(
        filer, seat, queue, rt, pass, &mut grant, message, moment, gate, hint, most, &mut told,
        handles, sink,
    );
    let chained = ended_by(&tried);
    let kept = end_on::<N, G, S>(filer, seat, grant, tried, gate, &mut told, handles, sink);
    forget(told);
    ServedAll { kept, chained }
}

/// Begins the call of a message on what it tries, runs it, and ends it; and so with the next
/// messages under the same grant, while they try the same node. Calls that change something run no
/// earlier than this moment, and others at just this moment.
pub fn run_messages<R: Wait, G: Gate, H: Hint, S: AnswerSink>(
    filer: &Filer,
    seat: &mut Seat<Service>,
    queue: &SharedWaiting<Envelope, Layout>,
    rt: &R,
    pass: &mut Pass<Envelope, Layout>,
    message: Envelope,
    moment: Moment,
    gate: &G,
    hint: &H,
    most: usize,
    handles: HandleForm,
    sink: &mut S,
) -> ServedAll
    requires seat { IsSeatHere filer.now.depot seat.old }
    requires ready { IsReady (layout_in filer.now) (verifier_in filer.now) (view seat.old) }
    requires of { IsOf queue.now pass.old }
    requires layout { layout_known (known pass.old) ≡ Some (layout_in filer.now) }
    requires placed { IsPlaced (layout_in filer.now) message }
    ensures seat { IsSeatHere filer.now.depot seat.new }
    ensures splits { splits_left seat.new ≡ splits_left seat.old }
    ensures ready { IsReady (layout_in filer.now) (verifier_in filer.now) (view seat.new) }
    ensures of { IsOf queue.now pass.new }
    ensures share { HasShareOf (known pass.old) (known pass.new) }
    ensures few { HasDoneFew (turns_at_most most) (view seat.old) (view seat.new) }
    ensures placed { IfSome result.kept (IsPlaced (layout_in filer.now)) }
    ensures served { (s : Standing)
        → IsPicked s (view seat.old) (known pass.old) message
        → HasServedOn (TookTold handles S.took) (layout_in filer.now) s moment sink.old
        result.chained sink.new (left_standing (view seat.new) (known pass.new) result.kept) }
{
    match message.affinity() {
        CallNode::Stripe { .. } => run_messages_on::<StripeNode, R, G, H, S>(
            filer, seat, queue, rt, pass, message, moment, gate, hint, most, handles, sink,
        ),
        CallNode::Logical(_) => run_messages_on::<LogicalNode, R, G, H, S>(
            filer, seat, queue, rt, pass, message, moment, gate, hint, most, handles, sink,
        ),
        CallNode::Volume(_) => run_messages_on::<VolumeNode, R, G, H, S>(
            filer, seat, queue, rt, pass, message, moment, gate, hint, most, handles, sink,
        ),
        CallNode::Aggregate(_) => run_messages_on::<AggregateNode, R, G, H, S>(
            filer, seat, queue, rt, pass, message, moment, gate, hint, most, handles, sink,
        ),
        CallNode::Serial => run_messages_on::<SerialNode, R, G, H, S>(
            filer, seat, queue, rt, pass, message, moment, gate, hint, most, handles, sink,
        ),
    }
}
