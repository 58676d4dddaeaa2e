//! A worker.

ghost use Rattle.filer_state.specs.state.Jobs.{batches_in};
ghost use Rattle.depot.specs.Words.{view, HasNoGrant};
ghost use Rattle.depot_rule.specs.History.{entries_of, AreHands};
ghost use Rattle.service.specs.Jobs.{job_takes, job_gives};
ghost use Rattle.granted_calls.specs.shared_waiting.Passes.{known};
ghost use Rattle.granted_calls.specs.Balance.{IsEven};

use crate::one_turn::told;
use crate::parts::WorkerParts;
use crate::queueing::{next, next_beside, put_kept};
use affinity::Layout;
use depot::Seat;
use granted_calls::shared_waiting::{Pass, SharedWaiting};
use granted_calls::{Envelope, Filer, Gate, Turn, run_message};
use nfs_values::Moment;
use service::{BatchInHand, Service};
use std::sync::Wait;

/// A seat of the depot and a pass of the queue, the batch of block numbers in the worker's hand,
/// a message that it keeps where the queue was full, and of which volume it knows that the stock
/// has enough numbers. Each message that its pass picked was finished by its seat, put back by its
/// pass or is kept, once for each time that it was picked; the batch is all that its seat's calls
/// took and didn't give; and its seat has no open grant.
pub struct Worker {
    pub(crate) seat: Seat<Service>,
    pub(crate) pass: Pass<Envelope, Layout>,
    pub(crate) hand: BatchInHand,
    pub(crate) kept: Option<Envelope>,
    pub(crate) stocked: Option<u32>,
    pub ghost balance: { IsEven (known pass) (entries_of (view seat)) kept },
    pub ghost in_hand: { AreHands job_takes job_gives (entries_of (view seat)) (batches_in hand) },
    pub ghost none_open: { HasNoGrant seat },
}

// By hand, so that crates above have no proof of the drop of each of its parts. So what takes a
// worker apart stands here.
impl Drop for Worker {
    fn drop(self) {
        let Worker {
            seat: _,
            pass: _,
            hand: _,
            kept: _,
            stocked: _,
        } = self;
    }
}

impl Worker {
    ghost use Rattle.std.specs.Prelude.{◌≡◌, ◌<◌, ◌+◌, [], None, Some};
    ghost use Rattle.nfs_model.specs.Parts as parts;
    ghost use Rattle.crossbeam_queue.specs.Fifo.{Held};
    ghost use Rattle.granted_calls.specs.shared_waiting.Balance.{both, left, right, Leaves};
    ghost use Rattle.granted_calls.specs.shared_waiting.Passes.{IsOf};
    ghost use Rattle.turns.specs.Apart.{AreOf, IsSettled};
    ghost use Rattle.turns.specs.Tends.{stocked_in};
    ghost use Rattle.granted_calls.specs.Served.{HasNext, HasShareOf, HasPut};
    ghost use Rattle.turns.specs.Turns.{HasTried};
    ghost use Rattle.granted_calls.specs.Filers.{layout_in, layout_known};
    ghost use Rattle.turns.specs.Words.{entries_in, passed, seats_in};
    ghost use Rattle.turns.specs.Words.{IsAt, IsIn};

    /// Picks the message that waits longest, where none is kept.
    pub(crate) fn pick<R: Wait>(
        &mut self,
        filer: &Filer,
        queue: &SharedWaiting<Envelope, Layout>,
        rt: &R,
    )
        requires { IsAt filer.now queue.now self.old }
        ensures inside { IsAt filer.now queue.now self.new }
        ensures next { HasNext (passed self.old) self.old.kept (passed self.new) self.new.kept }
        ensures put { (passed self.new).put ≡ (passed self.old).put }
        ensures share { HasShareOf (passed self.old) (passed self.new) }
        ensures seat { self.new.seat ≡ self.old.seat }
        ensures hand { self.new.hand ≡ self.old.hand }
        ensures stocked { stocked_in self.new ≡ stocked_in self.old }
    {
        let kept = self.kept.take();
        self.kept = next(queue, rt, &mut self.pass, kept);
    }

    /// `pick` for who has another pass of the queue beside.
    pub(crate) fn pick_beside<R: Wait>(
        &mut self,
        filer: &Filer,
        queue: &SharedWaiting<Envelope, Layout>,
        other: &mut Pass<Envelope, Layout>,
        rt: &R,
    )
        requires inside { IsAt filer.now queue.now self.old }
        requires other { IsOf queue.now other.old }
        requires key { (known other.old).key ≡ (passed self.old).key }
        ensures inside { IsAt filer.now queue.now self.new }
        ensures other { IsOf queue.now other.new × (known other.new ≡ known other.old) }
        ensures next { HasNext (passed self.old) self.old.kept (passed self.new) self.new.kept }
        ensures none { self.new.kept ≡ None
            → Held 0 (Leaves (both (passed self.old) (known other.old))) }
        ensures put { (passed self.new).put ≡ (passed self.old).put }
        ensures share { HasShareOf (passed self.old) (passed self.new) }
        ensures seat { self.new.seat ≡ self.old.seat }
        ensures hand { self.new.hand ≡ self.old.hand }
        ensures stocked { stocked_in self.new ≡ stocked_in self.old }
    {
        let kept = self.kept.take();
        self.kept = next_beside(queue, rt, &mut self.pass, other, kept);
    }

    /// Tries the message that is kept, if one is. It keeps the message unless that is finished.
    pub(crate) fn try_kept<G: Gate>(
        &mut self,
        filer: &Filer,
        queue: &SharedWaiting<Envelope, Layout>,
        gate: &G,
        moment: Moment,
    ) -> Turn
        requires { IsAt filer.now queue.now self.old }
        ensures inside { IsAt filer.now queue.now self.new }
        ensures tried { HasTried (layout_in filer.now) self.old moment result self.new }
        ensures pass { self.new.pass ≡ self.old.pass }
        ensures seats { seats_in self.new ≡ seats_in self.old }
        ensures hand { self.new.hand ≡ self.old.hand }
        ensures stocked { stocked_in self.new ≡ stocked_in self.old }
    {
        let message = match self.kept.take() {
            Some(message) => message,
            None => return Turn::Idle,
        };
        let (kept, turned) = told(run_message(filer, &mut self.seat, message, moment, gate));
        self.kept = kept;
        turned
    }

    /// Puts the message that is kept, if one is. It is kept still where the queue is full.
    pub(crate) fn put<R: Wait>(
        &mut self,
        filer: &Filer,
        queue: &SharedWaiting<Envelope, Layout>,
        rt: &R,
    )
        requires { IsAt filer.now queue.now self.old }
        ensures inside { IsAt filer.now queue.now self.new }
        ensures again { HasPut (passed self.old) self.old.kept (passed self.new) self.new.kept }
        ensures picked { (passed self.new).picked ≡ (passed self.old).picked }
        ensures share { HasShareOf (passed self.old) (passed self.new) }
        ensures seat { self.new.seat ≡ self.old.seat }
        ensures hand { self.new.hand ≡ self.old.hand }
        ensures stocked { stocked_in self.new ≡ stocked_in self.old }
    {
        let kept = self.kept.take();
        self.kept = put_kept(queue, rt, &mut self.pass, kept);
    }

    /// This worker, and a second one with one of its seats and half of its share of the right to
    /// know the queue. The second has done nothing, carries nothing, keeps nothing and knows of no
    /// stock; what is known of one stays with the first.
    pub fn split(self, filer: &Filer) -> (Worker, Worker)
        requires inside { IsIn filer.now self }
        requires some { 1 < seats_in self }
        ensures first { IsIn filer.now result.0 }
        ensures second { IsIn filer.now result.1 }
        ensures seats { (seats_in result.0 + 1 ≡ seats_in self) × (seats_in result.1 ≡ 1) }
        ensures passes { (passed result.0 ≡ left (passed self))
            × (passed result.1 ≡ right (passed self)) }
        ensures entries { (entries_in result.0 ≡ entries_in self) × (entries_in result.1 ≡ []) }
        ensures hands { (result.0.hand ≡ self.hand) × (result.1.hand ≡ parts.Empty) }
        ensures kept { (result.0.kept ≡ self.kept) × (result.1.kept ≡ None) }
        ensures stocked { (stocked_in result.0 ≡ stocked_in self) × (stocked_in result.1 ≡ None) }
    {
        let Worker {
            seat,
            pass,
            hand,
            kept,
            stocked,
        } = self;
        match filer.depot.split_seat(seat) {
            Ok((seat, second)) => {
                let (pass, half) = filer.waiting.split_pass(pass);
                let first = Worker {
                    seat,
                    pass,
                    hand,
                    kept,
                    stocked,
                };
                (first, Worker::new(second, half))
            }
            Err(_refused) => unreachable!(),
        }
    }

    /// This worker with one of its seats less, and a second one with that seat and a pass of a
    /// queue of its own. The second has done nothing, carries nothing, keeps nothing and knows of
    /// no stock; what is known of one stays with the first.
    pub fn split_with(
        self,
        filer: &Filer,
        queue: &SharedWaiting<Envelope, Layout>,
        own: &SharedWaiting<Envelope, Layout>,
        pass: Pass<Envelope, Layout>,
    ) -> (Worker, Worker)
        requires inside { IsAt filer.now queue.now self }
        requires some { 1 < seats_in self }
        requires pass { IsOf own.now pass }
        requires layout { layout_known (known pass) ≡ Some (layout_in filer.now) }
        requires nothing { ((known pass).put ≡ []) × ((known pass).picked ≡ []) }
        ensures first { IsAt filer.now queue.now result.0 }
        ensures second { IsAt filer.now own.now result.1 }
        ensures seats { (seats_in result.0 + 1 ≡ seats_in self) × (seats_in result.1 ≡ 1) }
        ensures passes { (passed result.0 ≡ passed self) × (passed result.1 ≡ known pass) }
        ensures entries { (entries_in result.0 ≡ entries_in self) × (entries_in result.1 ≡ []) }
        ensures hands { (result.0.hand ≡ self.hand) × (result.1.hand ≡ parts.Empty) }
        ensures kept { (result.0.kept ≡ self.kept) × (result.1.kept ≡ None) }
        ensures stocked { (stocked_in result.0 ≡ stocked_in self) × (stocked_in result.1 ≡ None) }
    {
        let Worker {
            seat,
            pass: first_pass,
            hand,
            kept,
            stocked,
        } = self;
        match filer.depot.split_seat(seat) {
            Ok((seat, second)) => {
                let first = Worker {
                    seat,
                    pass: first_pass,
                    hand,
                    kept,
                    stocked,
                };
                (first, Worker::new(second, pass))
            }
            Err(_refused) => unreachable!(),
        }
    }

    /// What the worker is made of, with what its type keeps of it.
    pub fn into_parts(self) -> WorkerParts
        ensures of { AreOf self result }
        ensures settled { IsSettled result }
    {
        let Worker {
            seat,
            pass,
            hand,
            kept,
            stocked: _,
        } = self;
        WorkerParts {
            seat,
            pass,
            hand,
            kept,
        }
    }
}
