//! Outboxes that threads share.

ghost use Rattle.std.specs.Prelude.{◌≡◌, [], ◌∷◌, IfOk, OnOk, OnErr};
ghost use Rattle.outboxes.specs.Boxes.{none_open, oldest, opened, put, shut, taken};
ghost use Rattle.outboxes.specs.Boxes.{Boxes};
ghost use Rattle.granted_calls.specs.shared_waiting.Balance.{added, left, right, both};
ghost use Rattle.granted_calls.specs.shared_waiting.Balance.{FitsIn, IsWhole};
ghost use Rattle.granted_calls.specs.shared_waiting.Balance as queues;
ghost use Rattle.granted_calls.specs.shared_waiting.Passes as passes;
ghost use Rattle.granted_calls.specs.shared_waiting.Passes.{known};
ghost use Rattle.granted_calls.specs.SharedOutboxes.{AnyBoxes, HasChanged, IsOf};

use crate::answer::Answer;
use crate::shared_waiting::{Fitting, Pass, SharedWaiting};
use nfs_values::ConnectionNumber;
use outboxes::{OpenRefusal, Outboxes, Record};
use std::alloc::{AllocError, Global};
use std::sync::Wait;
use std::thread::yield_now;

/// The right to use shared outboxes. It knows which were taken out by it, and which were given
/// back.
pub type OutboxesPass = Pass<Outboxes, ()>;

impl Fitting<()> for Outboxes {
    ghost use Rattle.granted_calls.specs.SharedOutboxes.{AnyBoxes};

    ghost fits = { AnyBoxes };
}

/// The outboxes of a filer, shared by threads in place of a lock: whoever needs them takes them
/// out, and gives them back. Meanwhile others wait.
pub struct SharedOutboxes {
    pub(crate) place: SharedWaiting<Outboxes, ()>,
}

// By hand, so that crates above have no proof of the drop of each of its parts.
impl Drop for SharedOutboxes {
    fn drop(self) {
        let SharedOutboxes { place: _ } = self;
    }
}

/// Gives outboxes back.
fn give<R: Wait>(
    place: &SharedWaiting<Outboxes, ()>,
    rt: &R,
    pass: &mut OutboxesPass,
    outboxes: Outboxes,
)
    requires of { passes.IsOf place.now pass.old }
    requires fits { FitsIn AnyBoxes (known pass.old).key outboxes }
    ensures of { passes.IsOf place.now pass.new }
    ensures given { known pass.new ≡ added (known pass.old) outboxes }
{
    let mut kept = outboxes;
    for _ in rt.forever() {
        match place.admit(rt, pass, kept) {
            Ok(()) => return,
            Err(back) => kept = back,
        }
    }
}

impl SharedOutboxes {
    /// Outboxes of no connection, and their first pass, which has given them.
    pub fn new<R: Wait>(rt: &R, alloc: Global) -> Result<(SharedOutboxes, OutboxesPass), AllocError>
        ensures of { IfOk result (λ made. IsOf made.0 made.1) }
        ensures whole { IfOk result (λ made. IsWhole (known made.1)) }
        ensures given { IfOk result (λ made. ((known made.1).put ≡ none_open ∷ [])
            × ((known made.1).picked ≡ [])) }
    {
        let (place, mut pass) = SharedWaiting::new(alloc, &())?;
        give(&place, rt, &mut pass, Outboxes::new(alloc));
        Ok((SharedOutboxes { place }, pass))
    }

    /// Takes the outboxes out, once they are there.
    fn take_out<R: Wait>(&self, rt: &R, pass: &mut OutboxesPass) -> Outboxes
        requires { IsOf self.now pass.old }
        ensures of { IsOf self.now pass.new }
        ensures taken { known pass.new ≡ queues.taken (known pass.old) result }
        ensures fits { (boxes : Boxes) → FitsIn AnyBoxes (known pass.new).key boxes }
    {
        for _ in rt.forever() {
            if let Some(outboxes) = self.place.pick(rt, pass) {
                return outboxes;
            }
            yield_now();
        }
        unreachable!()
    }

    /// Opens a connection, for which nothing waits.
    pub fn open<R: Wait>(
        &self,
        rt: &R,
        pass: &mut OutboxesPass,
    ) -> Result<ConnectionNumber, OpenRefusal>
        requires { IsOf self.now pass.old }
        ensures of { IsOf self.now pass.new }
        ensures changed { (b c : Boxes) × HasChanged (known pass.old) b c (known pass.new)
            × OnOk result (c ≡ opened b) × OnErr result (c ≡ b)
            × IfOk result (λ connection. connection.0 ≡ b.next) }
    {
        let mut outboxes = self.take_out(rt, pass);
        let connection = outboxes.open();
        give(&self.place, rt, pass, outboxes);
        connection
    }

    /// Closes a connection and drops what waits for it. Nothing changes where the number isn't
    /// open.
    pub fn shut<R: Wait>(&self, rt: &R, pass: &mut OutboxesPass, connection: ConnectionNumber)
        requires { IsOf self.now pass.old }
        ensures of { IsOf self.now pass.new }
        ensures shut { (b : Boxes)
            × HasChanged (known pass.old) b (shut connection.0 b) (known pass.new) }
    {
        let mut outboxes = self.take_out(rt, pass);
        outboxes.shut(connection);
        give(&self.place, rt, pass, outboxes);
    }

    /// Puts an answer behind what waits for its connection.
    pub fn put<R: Wait>(&self, rt: &R, pass: &mut OutboxesPass, answer: Answer)
        requires { IsOf self.now pass.old }
        ensures of { IsOf self.now pass.new }
        ensures put { (b : Boxes) × HasChanged (known pass.old) b (put answer b) (known pass.new) }
    {
        let mut outboxes = self.take_out(rt, pass);
        drop(answer.put_into(&mut outboxes));
        give(&self.place, rt, pass, outboxes);
    }

    /// Takes the oldest record that waits for a connection: `None` where there is none, or where
    /// the number isn't open.
    pub fn take<R: Wait>(
        &self,
        rt: &R,
        pass: &mut OutboxesPass,
        connection: ConnectionNumber,
    ) -> Option<Record>
        requires { IsOf self.now pass.old }
        ensures of { IsOf self.now pass.new }
        ensures taken { (b : Boxes) × (result ≡ oldest connection.0 b)
            × HasChanged (known pass.old) b (taken connection.0 b) (known pass.new) }
    {
        let mut outboxes = self.take_out(rt, pass);
        let record = outboxes.take(connection);
        give(&self.place, rt, pass, outboxes);
        record
    }

    /// A pass cut in two. The first goes on with what was taken out and given back by it; by the
    /// second nothing was.
    pub fn split_pass(&self, pass: OutboxesPass) -> (OutboxesPass, OutboxesPass)
        requires { IsOf self.now pass }
        ensures of { IsOf self.now result.0 × IsOf self.now result.1 }
        ensures first { known result.0 ≡ left (known pass) }
        ensures second { known result.1 ≡ right (known pass) }
    {
        self.place.split_pass(pass)
    }

    /// One pass with what was taken out and given back by both.
    pub fn join_pass(&self, pass: OutboxesPass, other: OutboxesPass) -> OutboxesPass
        requires { IsOf self.now pass × IsOf self.now other }
        ensures of { IsOf self.now result }
        ensures both { known result ≡ both (known pass) (known other) }
    {
        self.place.join_pass(pass, other)
    }
}
