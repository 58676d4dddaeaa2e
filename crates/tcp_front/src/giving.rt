//! Records that are given on: calls to be run, and replies that need no worker.

ghost use Rattle.std.specs.Prelude.{◌≡◌, [], ◌∷◌, true, OnOk, OnErr};
ghost use Rattle.affinity.specs.Layout.{layout_of};
ghost use Rattle.outboxes.specs.Boxes.{addressed};
ghost use Rattle.outboxes.specs.Messages.{message};
ghost use Rattle.engine_feed.specs.Admission.{reply_at_once};
ghost use Rattle.engine_feed.specs.Seen.{asked_of};
ghost use Rattle.nfs_values.specs.Call.{call_of};
ghost use Rattle.nfs_values.specs.Caller.{caller_of};
ghost use Rattle.rpc_msg.specs.Seen.{request_at};
ghost use Rattle.rpc_msg.specs.declared.record.Request.TheVariants.{Refused, Undecoded};
ghost use Rattle.rpc_msg.specs.declared.record.Verdict.TheVariants.{Called};
ghost use Rattle.tcp_front.specs.Arrivals.{Answered};
ghost use Rattle.tcp_front.specs.Peers.{may_ask, may_grow, may_stop, sender_of};
ghost use Rattle.tcp_front.specs.Steps.{given_of};

use crate::peer::Peer;
use crate::sink::RecordSink;
use affinity::Layout;
use engine_feed::{admission_of, reply_at_once};
use nfs_values::{AuthFault, Call, Caller, Refusal};
use rpc_msg::{BoxedCall, DecodedCall, Request, Verdict};
use scheduler::Origin;
use std::alloc::{AllocError, Global};

/// Whether a peer may stop the server, for a caller as its record bears it.
fn may_stop(peer: Peer, caller: &Caller) -> bool
    ensures { result ≡ may_stop (sender_of peer) (caller_of caller.now) }
{
    if !peer.standing.is_checked {
        return peer.is_privileged;
    }
    peer.is_privileged && caller.credential.uid == 0 && !peer.standing.reads_only
}

/// Whether a peer may have a volume grow.
fn may_grow(peer: Peer, caller: &Caller) -> bool
    ensures { result ≡ may_grow (sender_of peer) (caller_of caller.now) }
{
    if peer.standing.is_checked {
        may_stop(peer, caller)
    } else {
        true
    }
}

/// Whether a peer may ask a call, for a caller as its record bears it.
fn may_ask(peer: Peer, call: &Call, caller: &Caller) -> bool
    ensures { result ≡ may_ask (sender_of peer) (call_of call.now) (caller_of caller.now) }
{
    match call {
        Call::Stop => may_stop(peer, caller),
        Call::Grow { .. } => may_grow(peer, caller),
        _ => true,
    }
}

/// Answers a record that has no home. It stands apart, so that others have no room for its reply.
#[inline(never)]
fn answer_now<S: RecordSink>(
    alloc: Global,
    sink: &mut S,
    layout: &Layout,
    origin: Origin,
    request: &Request,
) -> Result<(), AllocError>
    ensures ok { OnOk result (S.came sink.old (Answered (addressed origin.connection.0
        (message origin.xid (reply_at_once (layout_of layout.now) (asked_of request.now)))) ∷ [])
        sink.new) }
    ensures err { OnErr result (S.came sink.old [] sink.new) }
    ensures layout { S.layout sink.new ≡ S.layout sink.old }
{
    let mut reply = reply_at_once(alloc, layout, request);
    sink.answer(origin.connection, origin.xid, &mut reply)
}

/// Answers a record that is refused. It stands apart, as a request would take room in others.
#[inline(never)]
fn refuse<S: RecordSink>(
    alloc: Global,
    sink: &mut S,
    layout: &Layout,
    origin: Origin,
    refusal: Refusal,
) -> Result<(), AllocError>
    ensures ok { OnOk result (S.came sink.old (Answered (addressed origin.connection.0
        (message origin.xid (reply_at_once (layout_of layout.now)
        (asked_of (Refused refusal))))) ∷ []) sink.new) }
    ensures err { OnErr result (S.came sink.old [] sink.new) }
    ensures layout { S.layout sink.new ≡ S.layout sink.old }
{
    answer_now(alloc, sink, layout, origin, &Request::Refused(refusal))
}

/// Answers a call for whose name or data memory ran out, likewise.
#[inline(never)]
fn answer_undecoded<S: RecordSink>(
    alloc: Global,
    sink: &mut S,
    layout: &Layout,
    origin: Origin,
) -> Result<(), AllocError>
    ensures ok { OnOk result (S.came sink.old (Answered (addressed origin.connection.0
        (message origin.xid (reply_at_once (layout_of layout.now)
        (asked_of Undecoded)))) ∷ []) sink.new) }
    ensures err { OnErr result (S.came sink.old [] sink.new) }
    ensures layout { S.layout sink.new ≡ S.layout sink.old }
{
    answer_now(alloc, sink, layout, origin, &Request::Undecoded)
}

/// Answers a call that was read and has no home, and takes it along.
#[inline(never)]
fn answer_read<S: RecordSink>(
    alloc: Global,
    sink: &mut S,
    layout: &Layout,
    origin: Origin,
    asked: &mut BoxedCall,
) -> Result<(), AllocError>
    ensures ok { OnOk result (S.came sink.old (Answered (addressed origin.connection.0
        (message origin.xid (reply_at_once (layout_of layout.now)
        (asked_of (request_at asked.old.call asked.old.caller Called))))) ∷ []) sink.new) }
    ensures err { OnErr result (S.came sink.old [] sink.new) }
    ensures layout { S.layout sink.new ≡ S.layout sink.old }
{
    let DecodedCall { call, caller } = asked.take();
    answer_now(alloc, sink, layout, origin, &Request::Call { call, caller })
}

/// Gives on what a record of a peer asks: a call with a home to be run, and else the reply. A call
/// that the peer may not ask is refused.
pub(crate) fn give<S: RecordSink>(
    alloc: Global,
    sink: &mut S,
    layout: &Layout,
    peer: Peer,
    origin: Origin,
    asked: &mut BoxedCall,
    verdict: Verdict,
) -> Result<(), AllocError>
    requires room { S.room sink.old ≡ true }
    requires layout { S.layout sink.old ≡ layout_of layout.now }
    ensures ok { OnOk result (S.came sink.old (given_of (layout_of layout.now) peer origin
        (asked_of (request_at asked.old.call asked.old.caller verdict))) sink.new) }
    ensures err { OnErr result (S.came sink.old [] sink.new) }
    ensures layout { S.layout sink.new ≡ S.layout sink.old }
{
    match verdict {
        Verdict::Called => {
            let read = asked.get();
            if !may_ask(peer, &read.call, &read.caller) {
                let refusal = Refusal::AuthError(AuthFault::TooWeak);
                return refuse(alloc, sink, layout, origin, refusal);
            }
            asked.place_at(peer.address, peer.standing);
            match admission_of(layout, &asked.get().call) {
                Some(admission) => { sink.admit(origin, asked, admission.affinity, admission.room) }
                None => answer_read(alloc, sink, layout, origin, asked),
            }
        }
        Verdict::Refused(refusal) => refuse(alloc, sink, layout, origin, refusal),
        Verdict::Undecoded => answer_undecoded(alloc, sink, layout, origin),
    }
}
