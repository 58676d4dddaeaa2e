//! What becomes of a record that was read: its call waits for its home, or it is answered at once.

ghost use Rattle.std.specs.Prelude.{◌≡◌, ◌≤◌, ℕ, IfSome, length, option_map};
ghost use Rattle.nfs_model.specs.Home.{home};
ghost use Rattle.nfs_values.specs.Call.{call_of};
ghost use Rattle.nfs_values.specs.Reply.{reply_of};
ghost use Rattle.affinity.specs.Affinity.{call_node};
ghost use Rattle.affinity.specs.Layout.{layout_of};
ghost use Rattle.rpc_msg.specs.declared.handle_form.HandleForm.{HandleForm};
ghost use Rattle.rpc_msg.specs.Handles.{reply_told};
ghost use Rattle.engine_feed.specs.Admission.{reply_at_once, IsAdmissionOf};
ghost use Rattle.engine_feed.specs.Codec.{reply_record};
ghost use Rattle.engine_feed.specs.Limit.{reply_limit};
ghost use Rattle.engine_feed.specs.Seen.{asked_of};

use crate::at_once::answer_at_once;
use affinity::homes::home_of;
use affinity::{CallNode, Layout};
use nfs_values::{Call, Refusal, Reply};
use rpc_msg::{Request, refusals_fit, replies_fit, room_of_reply};
use std::alloc::Global;

/// Where a call waits.
#[derive(Clone, Copy)]
pub struct Admission {
    pub affinity: CallNode,
    /// The most bytes that the record of its reply takes.
    pub room: usize,
}

/// Where a call waits that has a home. One without is answered at once.
pub fn admission_of(layout: &Layout, call: &Call) -> Option<Admission>
    ensures waits { IfSome result
        (IsAdmissionOf (layout_of layout.now) (call_of call.now)) }
    ensures home { option_map (λ a. call_node a.affinity) result
        ≡ home (layout_of layout.now) (call_of call.now) }
    ensures short { IfSome result (λ a. a.room ≤ 131072) }
{
    match home_of(call, layout) {
        Some(affinity) => Some(Admission {
            affinity,
            room: room_of_reply(call, layout.volume_count() as u32),
        }),
        None => None,
    }
}

/// The reply to a request that needs no affinity. Its record is short, whatever its xid and however
/// its handles are told.
pub fn reply_at_once(alloc: Global, layout: &Layout, request: &Request) -> Reply
    ensures reply { reply_of result
        ≡ reply_at_once (layout_of layout.now) (asked_of request.now) }
    ensures short { (xid : ℕ) (form : HandleForm)
        → length (reply_record xid (reply_told form (reply_of result))) ≤ reply_limit }
{
    replies_fit();
    refusals_fit();
    match request {
        Request::Call { call, caller: _ } => Reply::Success(answer_at_once(alloc, call, layout)),
        Request::Refused(refusal) => Reply::Refused(*refusal),
        Request::Undecoded => Reply::Refused(Refusal::SystemError),
    }
}
