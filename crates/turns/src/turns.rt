//! A worker's turns one after the other.

use crate::worker::Worker;
use affinity::Layout;
use granted_calls::shared_waiting::{Pass, SharedWaiting};
use granted_calls::{AnswerSink, Chained, Envelope, Filer, Gate, Hint, ServedAll, run_messages};
use nfs_values::Moment;
use rpc_msg::HandleForm;
use std::sync::Wait;

/// Leaves word where turns ended at a node that was taken.
fn leave_word<H: Hint>(hint: &H, chained: Chained) {
    if let Chained::Busy { node, word: _ } = chained {
        hint.ask(node);
    }
}

impl Worker {
    ghost use Rattle.std.specs.Prelude.{◌≡◌};
    ghost use Rattle.crossbeam_queue.specs.Fifo.{Held};
    ghost use Rattle.granted_calls.specs.declared.chained.Chained.TheVariants.{Idle};
    ghost use Rattle.granted_calls.specs.shared_waiting.Balance.{both, Leaves};
    ghost use Rattle.granted_calls.specs.shared_waiting.Passes.{known, IsOf};
    ghost use Rattle.granted_calls.specs.Chains.{turns_at_most, HasDoneFew};
    ghost use Rattle.granted_calls.specs.Chains.{HasTriedAll, HasTurnedOn};
    ghost use Rattle.granted_calls.specs.Telling.{TookTold};
    ghost use Rattle.turns.specs.Tends.{stocked_in};
    ghost use Rattle.granted_calls.specs.Served.{HasShareOf};
    ghost use Rattle.turns.specs.Turns.{standing_of};
    ghost use Rattle.granted_calls.specs.Filers.{layout_in};
    ghost use Rattle.turns.specs.Words.{passed, seat_view, seats_in, IsAt};

    /// Tries the message that is kept, if one is, and then those that wait and try the same node,
    /// at most this many. What is kept then: the last where it isn't finished, or else one that was
    /// picked and tries another node.
    fn try_all<R: Wait, G: Gate, H: Hint, S: AnswerSink>(
        &mut self,
        filer: &Filer,
        queue: &SharedWaiting<Envelope, Layout>,
        rt: &R,
        gate: &G,
        hint: &H,
        moment: Moment,
        most: usize,
        handles: HandleForm,
        sink: &mut S,
    ) -> Chained
        requires { IsAt filer.now queue.now self.old }
        ensures inside { IsAt filer.now queue.now self.new }
        ensures tried { HasTriedAll (TookTold handles S.took) (layout_in filer.now)
            (standing_of self.old) moment sink.old result sink.new (standing_of self.new) }
        ensures few { HasDoneFew (turns_at_most most) (seat_view self.old) (seat_view self.new) }
        ensures share { HasShareOf (passed self.old) (passed self.new) }
        ensures seats { seats_in self.new ≡ seats_in self.old }
        ensures hand { self.new.hand ≡ self.old.hand }
        ensures stocked { stocked_in self.new ≡ stocked_in self.old }
    {
        let message = match self.kept.take() {
            Some(message) => message,
            None => return Chained::Idle,
        };
        let ServedAll { kept, chained } = run_messages(
            filer,
            &mut self.seat,
            queue,
            rt,
            &mut self.pass,
            message,
            moment,
            gate,
            hint,
            most,
            handles,
            sink,
        );
        self.kept = kept;
        chained
    }

    /// Turns for who has another pass of the queue beside: the call of the message that is kept, or
    /// else of the one that waits longest, and then, under the same grant, those of the messages
    /// after it that try the same node, at most this many. The answers go into a sink, with their
    /// handles in a form. A message that was picked and tries another node is kept, for the next
    /// turn. Where the node was refused, a hint is left to who has it; and where one is left here,
    /// no more is picked. Where no message is found, none waits by both passes, and so none at all
    /// where nobody else has a pass. Calls that change something run no earlier than this moment,
    /// and others at just this moment.
    pub fn turns_beside<R: Wait, G: Gate, H: Hint, S: AnswerSink>(
        &mut self,
        filer: &Filer,
        queue: &SharedWaiting<Envelope, Layout>,
        other: &mut Pass<Envelope, Layout>,
        rt: &R,
        gate: &G,
        hint: &H,
        moment: Moment,
        most: usize,
        handles: HandleForm,
        sink: &mut S,
    ) -> Chained
        requires inside { IsAt filer.now queue.now self.old }
        requires other { IsOf queue.now other.old }
        requires key { (known other.old).key ≡ (passed self.old).key }
        ensures inside { IsAt filer.now queue.now self.new }
        ensures other { IsOf queue.now other.new × (known other.new ≡ known other.old) }
        ensures turned { HasTurnedOn (TookTold handles S.took) (layout_in filer.now)
            (standing_of self.old) moment sink.old result sink.new (standing_of self.new) }
        ensures few { HasDoneFew (turns_at_most most) (seat_view self.old) (seat_view self.new) }
        ensures none { result ≡ Idle
            → Held 0 (Leaves (both (passed self.old) (known other.old))) }
        ensures share { HasShareOf (passed self.old) (passed self.new) }
        ensures seats { seats_in self.new ≡ seats_in self.old }
        ensures hand { self.new.hand ≡ self.old.hand }
        ensures stocked { stocked_in self.new ≡ stocked_in self.old }
    {
        self.pick_beside(filer, queue, other, rt);
        let chained = self.try_all(filer, queue, rt, gate, hint, moment, most, handles, sink);
        if chained.is_done() {
            return chained;
        }
        leave_word(hint, chained);
        self.put(filer, queue, rt);
        chained
    }
}
