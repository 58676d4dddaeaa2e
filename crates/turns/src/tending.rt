//! What a worker does without a message.

ghost use Rattle.std.specs.Prelude.{◌≡◌, ◌||◌, true, length, nat_lt, Ok, Err, MatchResult};
ghost use Rattle.affinity.specs.Layout.{layout_of};
ghost use Rattle.nfs_model.specs.Events.Refusals.{is_empty_hand};
ghost use Rattle.nfs_model.specs.Parts as parts;
ghost use Rattle.nfs_model.specs.Parts.{batch_in};
ghost use Rattle.service.specs.Jobs.{batch_reply_of};
ghost use Rattle.service.specs.Works.{batch_call_of, batch_hand_of};
ghost use Rattle.turns.specs.Carries.{hand_after, stock_by, IsToldAs, IsToldOf};
ghost use Rattle.turns.specs.Tends.{call_of, is_cull};

use crate::inner::{carry, volume_of};
use crate::stock::{is_stocked, stocked};
use crate::tend::{Carried, Tend, TendRefusal, Tended};
use crate::worker::Worker;
use affinity::Layout;
use granted_calls::shared_waiting::SharedWaiting;
use granted_calls::{Envelope, Filer};
use nfs_laws::laws::batches_are_of_one_range;
use nfs_values::VolumeNumber;
use parcels::Hand;
use service::{BatchInHand, BatchReply, BatchWork, LogicalWork, RangeWork, put_down};
use std::mem;

/// The ranges of a volume, in use or not.
const RANGES: u32 = 16;

/// Whether a hand is empty.
fn is_empty(hand: &BatchInHand) -> bool
    ensures told { result ≡ is_empty_hand hand.now }
    ensures empty { result ≡ true → hand.now ≡ parts.Empty }
{
    match hand.hand() {
        Hand::Empty => true,
        Hand::Fresh { .. } => false,
        Hand::Dead { .. } => false,
    }
}

/// Whether a volume is there.
fn has_volume(layout: &Layout, volume: VolumeNumber) -> bool
    ensures { result ≡ nat_lt volume.0 (length (layout_of layout.now).volumes) }
{
    (volume.0 as usize) < layout.volume_count()
}

/// The inner call of a tend, with what was in the hand; or the hand, and why there is none.
fn work_of(
    layout: &Layout,
    hand: BatchInHand,
    tend: Tend,
) -> Result<BatchWork, (BatchInHand, TendRefusal)>
    ensures call { let asked = call_of (layout_of layout.now) tend hand in MatchResult result
        (λ work. asked ≡ Ok (batch_call_of work))
        (λ back. asked ≡ Err back.1) }
    ensures hand { MatchResult result (λ work. batch_hand_of work ≡ hand) (λ back. back.0 ≡ hand) }
{
    match tend {
        Tend::Fetch { volume, range } => {
            if !is_empty(&hand) {
                return Err((hand, TendRefusal::HandFull));
            }
            if !has_volume(layout, volume) {
                return Err((hand, TendRefusal::NoSuchRange));
            }
            if range >= RANGES {
                return Err((hand, TendRefusal::NoSuchRange));
            }
            Ok(BatchWork::Range(RangeWork::Fetch { volume, range }))
        }
        Tend::Cull { volume } => {
            if !is_empty(&hand) {
                return Err((hand, TendRefusal::HandFull));
            }
            if !has_volume(layout, volume) {
                return Err((hand, TendRefusal::NoSuchRange));
            }
            Ok(BatchWork::Logical(LogicalWork::Cull { volume }))
        }
        Tend::PutDown => match put_down(layout, hand) {
            Ok(work) => Ok(work),
            Err(hand) => Err((hand, TendRefusal::HandEmpty)),
        },
    }
}

/// How many blocks are in a hand: at most 64.
fn blocks_in(hand: &BatchInHand) -> u32
    ensures { result ≡ length (batch_in hand.now) }
{
    match hand.hand() {
        Hand::Empty => 0,
        Hand::Fresh { volume: _, batch } => batch.len() as u32,
        Hand::Dead { volume: _, batch } => batch.len() as u32,
    }
}

/// What is in the hand after an inner call with this reply, and what is told of it.
fn told(reply: BatchReply) -> (BatchInHand, Tended)
    ensures hand { result.0 ≡ hand_after (batch_reply_of reply) }
    ensures told { IsToldAs (batch_reply_of reply) result.1 }
{
    match reply {
        BatchReply::Took(hand) => {
            let count = blocks_in(&hand);
            (hand, Tended::InHand { count })
        }
        BatchReply::Gave(hand) => {
            let count = blocks_in(&hand);
            (BatchInHand::new(Hand::Empty), Tended::PutDown { count })
        }
    }
}

/// What is in the hand after an inner call, what its tend answers, and what was told of a stock.
pub(crate) fn answer(carried: Carried) -> (BatchInHand, Result<Tended, TendRefusal>, Option<bool>)
    ensures told { IsToldOf carried result.0 result.1 }
    ensures stock { result.2 ≡ stock_by carried }
{
    match carried {
        Carried::Done(reply, stock) => {
            let (hand, tended) = told(reply);
            (hand, Ok(tended), stock)
        }
        Carried::Refused(hand, refusal) => (hand, Err(refusal), None),
    }
}

/// Whether one of two is true.
fn either(a: bool, b: bool) -> bool
    ensures { result ≡ (a || b) }
{
    a || b
}

/// Whether the tend after this many with an empty hand is a cull of a volume, by the volume whose
/// stock is known to have enough numbers.
fn is_cull(made: u64, volume: u32, stocked: Option<u32>) -> bool
    ensures { result ≡ is_cull made volume stocked }
{
    either(made % 2 == 0, is_stocked(stocked, volume))
}

impl Worker {
    ghost use Rattle.std.specs.Option.{is_some};
    ghost use Rattle.turns.specs.Tends.{hand_in, kept_in, stocked_in};
    ghost use Rattle.turns.specs.Tends.{IsNextTend, Tends};
    ghost use Rattle.granted_calls.specs.Filers.{layout_in};
    ghost use Rattle.turns.specs.Words.{passed, seats_in, IsAt};

    /// What is in the worker's hand.
    pub fn hand(&self) -> &BatchInHand
        ensures { result.now ≡ hand_in self.now }
    {
        &self.hand
    }

    /// Whether the worker's hand is empty.
    pub fn has_empty_hand(&self) -> bool
        ensures { result ≡ is_empty_hand (hand_in self.now) }
    {
        is_empty(&self.hand)
    }

    /// Whether the worker keeps a message, for which the queue had no place.
    pub fn keeps_message(&self) -> bool
        ensures { result ≡ is_some (kept_in self.now) }
    {
        self.kept.is_some()
    }

    /// The tend after a turn without a message, after `made` ones with an empty hand: what is
    /// in the hand is put down, else culls and fetches take turns, over all volumes, and the
    /// fetches of a volume over its ranges. A cull takes the place of a fetch where the stock of
    /// the volume had enough numbers when the worker looked last: as a rule, at the cull before it.
    pub fn next_tend(&self, filer: &Filer, made: u64) -> Tend
        ensures { IsNextTend (length (layout_in filer.now).volumes) made
            (stocked_in self.now) (hand_in self.now) result }
    {
        if !self.has_empty_hand() {
            return Tend::PutDown;
        }
        let volumes = filer.depot.layout().volume_count() as u64;
        let volume = VolumeNumber((made / 2 % volumes) as u32);
        if is_cull(made, volume.0, self.stocked) {
            return Tend::Cull { volume };
        }
        let range = (made / (2 * volumes) % u64::from(RANGES)) as u32;
        Tend::Fetch { volume, range }
    }

    /// Fetches, culls or puts down: begins the inner call on its node, runs it, and finishes it or
    /// puts it back. It waits for nobody, and leaves the queue of the worker's messages.
    pub fn tend_in(
        &mut self,
        filer: &Filer,
        queue: &SharedWaiting<Envelope, Layout>,
        tend: Tend,
    ) -> Result<Tended, TendRefusal>
        requires { IsAt filer.now queue.now self.old }
        ensures inside { IsAt filer.now queue.now self.new }
        ensures tends { Tends (layout_in filer.now) self.old tend result self.new }
        ensures pass { passed self.new ≡ passed self.old }
        ensures kept { kept_in self.new ≡ kept_in self.old }
        ensures seats { seats_in self.new ≡ seats_in self.old }
    {
        batches_are_of_one_range();
        let held = mem::replace(&mut self.hand, BatchInHand::new(Hand::Empty));
        match work_of(filer.depot.layout(), held, tend) {
            Ok(work) => {
                let call = work.call();
                let (hand, answer, stock) = answer(carry(filer, &mut self.seat, call, work));
                self.hand = hand;
                self.stocked = stocked(volume_of(call), stock, self.stocked);
                answer
            }
            Err((hand, refusal)) => {
                self.hand = hand;
                Err(refusal)
            }
        }
    }
}
