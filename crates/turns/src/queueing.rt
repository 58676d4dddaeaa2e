//! Messages out of the queue, and back into it.

ghost use Rattle.std.specs.Prelude.{◌≡◌, Some, None, IfSome};
ghost use Rattle.crossbeam_queue.specs.Fifo.{Held};
ghost use Rattle.nfs_model.specs.Tree as trees;
ghost use Rattle.granted_calls.specs.shared_waiting.Balance.{both, Leaves};
ghost use Rattle.granted_calls.specs.shared_waiting.Passes.{known, IsOf};
ghost use Rattle.granted_calls.specs.Messages.{IsPlaced};
ghost use Rattle.granted_calls.specs.Served.{HasNext, WaitsAgain, HasShareOf, HasPut};
ghost use Rattle.granted_calls.specs.Filers.{layout_known};

use affinity::Layout;
use granted_calls::Envelope;
use granted_calls::shared_waiting::{Pass, SharedWaiting};
use std::sync::Wait;

/// The message that is kept, or else the one that waits longest.
pub(crate) fn next<R: Wait>(
    waiting: &SharedWaiting<Envelope, Layout>,
    rt: &R,
    pass: &mut Pass<Envelope, Layout>,
    kept: Option<Envelope>,
) -> Option<Envelope>
    requires of { IsOf waiting.now pass.old }
    ensures of { IsOf waiting.now pass.new }
    ensures put { (known pass.new).put ≡ (known pass.old).put }
    ensures share { HasShareOf (known pass.old) (known pass.new) }
    ensures next { HasNext (known pass.old) kept (known pass.new) result }
    ensures placed { (layout : trees.Layout)
        → layout_known (known pass.old) ≡ Some layout
        → IfSome kept (IsPlaced layout)
        → IfSome result (IsPlaced layout) }
{
    match kept {
        Some(message) => Some(message),
        None => waiting.pick(rt, pass),
    }
}

/// The message that waits longest. Where none is found, none waits by both passes.
fn look_twice<R: Wait>(
    waiting: &SharedWaiting<Envelope, Layout>,
    rt: &R,
    pass: &mut Pass<Envelope, Layout>,
    other: &mut Pass<Envelope, Layout>,
) -> Option<Envelope>
    requires of { IsOf waiting.now pass.old × IsOf waiting.now other.old }
    requires key { (known other.old).key ≡ (known pass.old).key }
    ensures of { IsOf waiting.now pass.new × IsOf waiting.now other.new }
    ensures other { known other.new ≡ known other.old }
    ensures put { (known pass.new).put ≡ (known pass.old).put }
    ensures share { HasShareOf (known pass.old) (known pass.new) }
    ensures next { HasNext (known pass.old) None (known pass.new) result }
    ensures none { result ≡ None → Held 0 (Leaves (both (known pass.old) (known other.old))) }
    ensures placed { (layout : trees.Layout)
        → layout_known (known pass.old) ≡ Some layout
        → IfSome result (IsPlaced layout) }
{
    match waiting.pick(rt, pass) {
        Some(message) => Some(message),
        None => waiting.pick_beside(rt, pass, other),
    }
}

/// `next` for who has another pass of the queue beside: where no message is found, none waits by
/// both passes, and so none at all where nobody else has a pass.
pub(crate) fn next_beside<R: Wait>(
    waiting: &SharedWaiting<Envelope, Layout>,
    rt: &R,
    pass: &mut Pass<Envelope, Layout>,
    other: &mut Pass<Envelope, Layout>,
    kept: Option<Envelope>,
) -> Option<Envelope>
    requires of { IsOf waiting.now pass.old × IsOf waiting.now other.old }
    requires key { (known other.old).key ≡ (known pass.old).key }
    ensures of { IsOf waiting.now pass.new × IsOf waiting.now other.new }
    ensures other { known other.new ≡ known other.old }
    ensures put { (known pass.new).put ≡ (known pass.old).put }
    ensures share { HasShareOf (known pass.old) (known pass.new) }
    ensures next { HasNext (known pass.old) kept (known pass.new) result }
    ensures none { result ≡ None → Held 0 (Leaves (both (known pass.old) (known other.old))) }
    ensures placed { (layout : trees.Layout)
        → layout_known (known pass.old) ≡ Some layout
        → IfSome kept (IsPlaced layout)
        → IfSome result (IsPlaced layout) }
{
    match kept {
        Some(message) => Some(message),
        None => look_twice(waiting, rt, pass, other),
    }
}

/// Puts a message, or answers it where the queue is full.
fn wait_again<R: Wait>(
    waiting: &SharedWaiting<Envelope, Layout>,
    rt: &R,
    pass: &mut Pass<Envelope, Layout>,
    message: Envelope,
) -> Option<Envelope>
    requires of { IsOf waiting.now pass.old }
    requires placed { (layout : trees.Layout) × (layout_known (known pass.old) ≡ Some layout)
        × IsPlaced layout message }
    ensures of { IsOf waiting.now pass.new }
    ensures picked { (known pass.new).picked ≡ (known pass.old).picked }
    ensures share { HasShareOf (known pass.old) (known pass.new) }
    ensures again { WaitsAgain (known pass.old) (known pass.new) result message }
    ensures same { IfSome result (λ m. m ≡ message) }
{
    waiting.admit(rt, pass, message).err()
}

/// Puts the message that is kept, if one is, and answers what is kept then.
pub(crate) fn put_kept<R: Wait>(
    waiting: &SharedWaiting<Envelope, Layout>,
    rt: &R,
    pass: &mut Pass<Envelope, Layout>,
    kept: Option<Envelope>,
) -> Option<Envelope>
    requires of { IsOf waiting.now pass.old }
    requires placed { (layout : trees.Layout) × (layout_known (known pass.old) ≡ Some layout)
        × IfSome kept (IsPlaced layout) }
    ensures of { IsOf waiting.now pass.new }
    ensures picked { (known pass.new).picked ≡ (known pass.old).picked }
    ensures share { HasShareOf (known pass.old) (known pass.new) }
    ensures again { HasPut (known pass.old) kept (known pass.new) result }
    ensures placed { (layout : trees.Layout)
        → IfSome kept (IsPlaced layout)
        → IfSome result (IsPlaced layout) }
{
    match kept {
        Some(message) => wait_again(waiting, rt, pass, message),
        None => None,
    }
}
