//! The messages that wait at the end.

ghost use Rattle.std.specs.Prelude.{◌≡◌, ◌≤◌, ◌+◌, ℕ, [], vec_len, vec_capacity};
ghost use Rattle.depot_rule.specs.Sums.{total};
ghost use Rattle.granted_calls.specs.shared_waiting.Balance.{IsWhole};
ghost use Rattle.granted_calls.specs.shared_waiting.Passes.{known, IsOf};
ghost use Rattle.granted_calls.specs.Messages as messages;

use affinity::Layout;
use granted_calls::Envelope;
use granted_calls::shared_waiting::{Pass, SharedWaiting};
use std::sync::Wait;

/// Picks all messages that wait, by the only pass that is left, behind others.
pub fn drain_behind<R: Wait>(
    waiting: &SharedWaiting<Envelope, Layout>,
    rt: &R,
    mut pass: Pass<Envelope, Layout>,
    mut into: Vec<Envelope>,
) -> Vec<Envelope>
    requires of { IsOf waiting.now pass }
    requires whole { IsWhole (known pass) }
    requires room { vec_len into + 1024 ≤ vec_capacity into }
    ensures all { (weigh : messages.Message → ℕ)
        → total weigh (known pass).put + total weigh into.items
        ≡ total weigh (known pass).picked + total weigh result.items }
    ensures len { vec_len result ≤ vec_len into + 1024 }
    ensures room { vec_capacity result ≡ vec_capacity into }
{
    let most = waiting.count(rt, &mut pass);
    for _ in 0..most {
        let message = match waiting.pick(rt, &mut pass) {
            Some(message) => message,
            None => return into,
        };
        into.push_reserved(message);
    }
    waiting.look(&mut pass);
    into
}

/// Picks all messages that wait, by the only pass that is left.
pub(crate) fn drain<R: Wait>(
    waiting: &SharedWaiting<Envelope, Layout>,
    rt: &R,
    pass: Pass<Envelope, Layout>,
    into: Vec<Envelope>,
) -> Vec<Envelope>
    requires of { IsOf waiting.now pass }
    requires whole { IsWhole (known pass) }
    requires empty { into.items ≡ [] }
    requires room { 1024 ≤ vec_capacity into }
    ensures { (weigh : messages.Message → ℕ)
        → total weigh (known pass).put
        ≡ total weigh (known pass).picked + total weigh result.items }
{
    drain_behind(waiting, rt, pass, into)
}
