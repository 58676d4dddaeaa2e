//! A worker's turn, to the outboxes.

ghost use Rattle.std.specs.Prelude.{◌≡◌};
ghost use Rattle.granted_calls.specs.SharedOutboxes.{HasLentShareOf, IsOf};
ghost use Rattle.granted_calls.specs.shared_waiting.Passes.{known};
ghost use Rattle.granted_calls.specs.Filers.{layout_in};
ghost use Rattle.granted_calls.specs.Served.{HasShareOf};
ghost use Rattle.turns.specs.Tends.{stocked_in};
ghost use Rattle.turns.specs.Words.{passed, seats_in, IsIn};
ghost use Rattle.workers.specs.Works.{HasPutAnswer, HasWorked, IsToldAs};

use crate::worked::Worked;
use granted_calls::{Answer, Filer, Gate, OutboxesPass, SharedOutboxes, Turn};
use nfs_values::{ConnectionNumber, Moment};
use std::sync::Wait;
use turns::Worker;

/// Puts an answer behind what waits for its connection. Answers which that is.
fn deliver<R: Wait>(
    outboxes: &SharedOutboxes,
    rt: &R,
    pass: &mut OutboxesPass,
    answer: Answer,
) -> ConnectionNumber
    requires { IsOf outboxes.now pass.old }
    ensures of { IsOf outboxes.now pass.new }
    ensures connection { result.0 ≡ answer.connection }
    ensures put { HasPutAnswer (known pass.old) answer (known pass.new) }
{
    let connection = answer.connection();
    outboxes.put(rt, pass, answer);
    connection
}

/// What is told of a turn, whose answer is put if there is one.
fn put_answer<R: Wait>(
    outboxes: &SharedOutboxes,
    rt: &R,
    pass: &mut OutboxesPass,
    turn: Turn,
) -> Worked
    requires { IsOf outboxes.now pass.old }
    ensures of { IsOf outboxes.now pass.new }
    ensures told { IsToldAs turn (known pass.old) result (known pass.new) }
{
    match turn {
        Turn::Done(answer) => Worked::Done(deliver(outboxes, rt, pass, answer)),
        Turn::Moved => Worked::Moved,
        Turn::Busy { node, word } => Worked::Busy { node, word },
        Turn::Worn => Worked::Worn,
        Turn::Idle => Worked::Idle,
    }
}

/// A turn whose answer, if there is one, is put behind what waits for its connection: by the
/// pass the outboxes are taken out, and given back with this answer put.
pub fn worker_turn<R: Wait, G: Gate>(
    worker: Worker,
    filer: &Filer,
    outboxes: &SharedOutboxes,
    pass: &mut OutboxesPass,
    rt: &R,
    gate: &G,
    moment: Moment,
) -> (Worker, Worked)
    requires inside { IsIn filer.now worker }
    requires of { IsOf outboxes.now pass.old }
    ensures inside { IsIn filer.now result.0 }
    ensures of { IsOf outboxes.now pass.new }
    ensures worked { HasWorked (layout_in filer.now) worker moment (known pass.old)
        result.1 result.0 (known pass.new) }
    ensures lent { HasLentShareOf (known pass.old) (known pass.new) }
    ensures share { HasShareOf (passed worker) (passed result.0) }
    ensures seats { seats_in result.0 ≡ seats_in worker }
    ensures hand { result.0.hand ≡ worker.hand }
    ensures stocked { stocked_in result.0 ≡ stocked_in worker }
{
    let (worker, turn) = worker.turn(filer, rt, gate, moment);
    (worker, put_answer(outboxes, rt, pass, turn))
}
