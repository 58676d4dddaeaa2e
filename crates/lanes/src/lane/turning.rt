//! Turns of a lane.

ghost use Rattle.std.specs.Prelude.{◌≡◌};
ghost use Rattle.turns.specs.Tends.{kept_in};
ghost use Rattle.lanes.specs.Queues.{count_kept};

use crate::intake::Intake;
use crate::lane::Lane;
use connections::Device;
use granted_calls::{Chained, Filer, Gate, Hint, Place};
use nfs_values::{Moment, Reply};
use rpc_msg::HandleForm;
use service::Ahead;
use std::sync::Wait;
use turns::Worker;

/// How many messages a worker keeps.
fn kept_by(worker: &Worker) -> usize
    ensures { result ≡ count_kept (kept_in worker.now) }
{
    usize::from(worker.keeps_message())
}

/// A gate, and what calls to come look for.
#[derive(Drop)]
struct AheadGate<'a, G> {
    gate: &'a G,
    ahead: &'a Ahead,
}

impl<G: Gate> Gate for AheadGate<'_, G> {
    fn pass(&self, place: Place) {
        self.gate.pass(place);
    }

    fn finish(&self, told: &Reply) {
        self.gate.finish(told);
    }

    fn ahead(&self) -> Option<&Ahead> {
        Some(self.ahead)
    }
}

impl<R: Wait> Intake<R> {
    ghost use Rattle.std.specs.Prelude.{◌≤◌, []};
    ghost use Rattle.depot_rule.specs.Sums.{total};
    ghost use Rattle.granted_calls.specs.declared.chained.Chained.TheVariants.{Idle};
    ghost use Rattle.granted_calls.specs.shared_waiting.Passes.{known};
    ghost use Rattle.granted_calls.specs.Balance.{Weight, by_entry, by_key};
    ghost use Rattle.granted_calls.specs.Chains.{turns_at_most, HasDoneFew, HasPutAll, HasTurnedOn};
    ghost use Rattle.turns.specs.Turns.{standing_of};
    ghost use Rattle.granted_calls.specs.Telling.{TookTold};
    ghost use Rattle.granted_calls.specs.Filers.{layout_in};
    ghost use Rattle.turns.specs.Words.{entries_in, seat_view, seats_in, IsAt};
    ghost use Rattle.lanes.specs.Queues.{HasNoneLeft};

    /// Turns of its worker, whose answers are put into its outboxes, with their handles in a form,
    /// and a count of what waits.
    fn turns<G: Gate, H: Hint>(
        &mut self,
        filer: &Filer,
        gate: &G,
        hint: &H,
        moment: Moment,
        most: usize,
        handles: HandleForm,
    ) -> Chained
        requires inside { IsAt filer.now self.old.queue self.old.worker }
        requires picked { (known self.old.pass).picked ≡ [] }
        ensures inside { IsAt filer.now self.new.queue self.new.worker }
        ensures turned { HasTurnedOn (TookTold handles HasPutAll) (layout_in filer.now)
            (standing_of self.old.worker) moment self.old.outboxes result
            self.new.outboxes (standing_of self.new.worker) }
        ensures few { HasDoneFew (turns_at_most most) (seat_view self.old.worker)
            (seat_view self.new.worker) }
        ensures idle { result ≡ Idle → HasNoneLeft self.new.pass self.new.worker }
        ensures once { (weight : Weight) → total (by_entry weight) (entries_in self.new.worker)
            ≤ total (by_key weight) (known self.old.pass).put }
        ensures pass { known self.new.pass ≡ known self.old.pass }
        ensures seats { seats_in self.new.worker ≡ seats_in self.old.worker }
        ensures queue { self.new.queue ≡ self.old.queue }
        ensures filer { self.new.filer.value ≡ self.old.filer.value }
        ensures most { self.new.most ≡ self.old.most }
    {
        let gate = AheadGate {
            gate,
            ahead: &self.ahead,
        };
        let chained = self.worker.turns_beside(
            filer,
            &self.queue,
            &mut self.pass,
            &self.rt,
            &gate,
            hint,
            moment,
            most,
            handles,
            &mut self.outboxes,
        );
        let queued = self
            .worker
            .count_beside(filer, &self.queue, &mut self.pass, &self.rt);
        self.waiting = queued + kept_by(&self.worker);
        chained
    }
}

impl<D: Device, R: Wait> Lane<D, R> {
    ghost use Rattle.granted_calls.specs.declared.chained.Chained.TheVariants.{Idle};
    ghost use Rattle.granted_calls.specs.shared_waiting.Passes.{known};
    ghost use Rattle.granted_calls.specs.Chains.{turns_at_most, HasDoneFew, HasPutAll, HasTurnedOn};
    ghost use Rattle.turns.specs.Turns.{standing_of};
    ghost use Rattle.rpc_msg.specs.Offer.{form_of};
    ghost use Rattle.granted_calls.specs.Telling.{TookTold};
    ghost use Rattle.granted_calls.specs.Filers.{layout_in};
    ghost use Rattle.turns.specs.Words.{seat_view, seats_in};
    ghost use Rattle.lanes.specs.Queues.{HasNoneLeft};
    ghost use Rattle.lanes.specs.Words.{boxes_in, closed_in, connections_in, filer_in};
    ghost use Rattle.lanes.specs.Words.{identity_in, offer_in, pass_in, worker_in};

    /// Tries the call of the message that its worker keeps, or else of the one that waits longest,
    /// and then, under the same grant, those of the messages after it that try the same node, at
    /// most this many in all (`Worker::turns_beside`). Their answers are put into the outboxes, as
    /// what is offered tells them. Where no message is found, all that was ever put into the queue
    /// was picked.
    pub fn turns<G: Gate, H: Hint>(
        &mut self,
        gate: &G,
        hint: &H,
        moment: Moment,
        most: usize,
    ) -> Chained
        ensures turned { let form = form_of (offer_in self.old) in
            HasTurnedOn (TookTold form HasPutAll) (layout_in (filer_in self.old))
            (standing_of (worker_in self.old)) moment (boxes_in self.old) result
            (boxes_in self.new) (standing_of (worker_in self.new)) }
        ensures few { HasDoneFew (turns_at_most most) (seat_view (worker_in self.old))
            (seat_view (worker_in self.new)) }
        ensures idle { result ≡ Idle → HasNoneLeft (pass_in self.new) (worker_in self.new) }
        ensures pass { known (pass_in self.new) ≡ known (pass_in self.old) }
        ensures connections { connections_in self.new ≡ connections_in self.old }
        ensures closed { closed_in self.new ≡ closed_in self.old }
        ensures seats { seats_in (worker_in self.new) ≡ seats_in (worker_in self.old) }
        ensures filer { filer_in self.new ≡ filer_in self.old }
        ensures identity { identity_in self.new ≡ identity_in self.old }
    {
        let handles = self.offer.handles();
        self.intake
            .turns(&self.filer, gate, hint, moment, most, handles)
    }
}
