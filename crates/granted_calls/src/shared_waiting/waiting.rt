//! The calls of a queue.

ghost use Rattle.std.specs.Prelude.{◌≡◌, ◌≤◌, List, Some, IfOk, MatchResult, MatchOption};
ghost use Rattle.crossbeam_queue.specs.Fifo.{Held};
ghost use Rattle.granted_calls.specs.shared_waiting.Balance.{added, both, keyed, left, opening};
ghost use Rattle.granted_calls.specs.shared_waiting.Balance.{right, taken, FitsIn, Leaves};
ghost use Rattle.granted_calls.specs.shared_waiting.Passes.{known, IsOf};

use crate::shared_waiting::beside::{admit_by, count_by, pick_by};
use crate::shared_waiting::naming::name_as;
use crate::shared_waiting::pass::{Pass, SharedWaiting};
use crate::shared_waiting::view::{Cut, Fitting, Glue, Picks, Puts};
use crossbeam_queue::RuledArrayQueue;
use scheduler::MOST_WAITING;
use std::alloc::{AllocError, Global};
use std::marker::Brand;
use std::sync::Wait;

impl<T: Fitting<K> + Drop, K: Drop> SharedWaiting<T, K> {
    /// An empty queue of a key, and its first pass.
    pub fn new(alloc: Global, key: &K) -> Result<(SharedWaiting<T, K>, Pass<T, K>), AllocError>
        ensures { IfOk result
            (λ q. IsOf q.0 q.1 × (known q.1 ≡ keyed (Some key.now) opening)) }
    {
        let (queue, mut seat) = RuledArrayQueue::ruled(alloc, MOST_WAITING)?;
        name_as::<T, K, Brand>(&queue, &mut seat, key);
        Ok((SharedWaiting { queue }, Pass { seat }))
    }

    /// Puts a message, which comes back only where 1,024 were there at one moment of the call.
    pub fn admit<R: Wait>(&self, rt: &R, pass: &mut Pass<T, K>, message: T) -> Result<(), T>
        requires of { IsOf self.now pass.old }
        requires fits { FitsIn T.fits (known pass.old).key message }
        ensures of { IsOf self.now pass.new }
        ensures rule { MatchResult result
            (λ _. known pass.new ≡ added (known pass.old) message)
            (λ back. (back ≡ message) × (known pass.new ≡ known pass.old)
            × Held 1024 (Leaves (known pass.old))) }
    {
        self.queue.push_as::<Puts, R>(rt, &mut pass.seat, message)
    }

    /// Picks the message that waits longest: `None` only where none was there at one moment of
    /// the call.
    pub fn pick<R: Wait>(&self, rt: &R, pass: &mut Pass<T, K>) -> Option<T>
        requires { IsOf self.now pass.old }
        ensures of { IsOf self.now pass.new }
        ensures rule { MatchOption result
            ((known pass.new ≡ known pass.old) × Held 0 (Leaves (known pass.old)))
            (λ message. (known pass.new ≡ taken (known pass.old) message)
            × FitsIn T.fits (known pass.old).key message) }
    {
        self.queue.pop_as::<Picks, R>(rt, &mut pass.seat)
    }

    /// `admit` for who has two passes, by the first. A message comes back only where 1,024 were
    /// there by both passes, if these are all that there are.
    pub fn admit_beside<R: Wait>(
        &self,
        rt: &R,
        pass: &mut Pass<T, K>,
        other: &mut Pass<T, K>,
        message: T,
    ) -> Result<(), T>
        requires of { IsOf self.now pass.old × IsOf self.now other.old }
        requires key { (known other.old).key ≡ (known pass.old).key }
        requires fits { FitsIn T.fits (known pass.old).key message }
        ensures of { IsOf self.now pass.new × IsOf self.now other.new }
        ensures other { known other.new ≡ known other.old }
        ensures rule { MatchResult result
            (λ _. known pass.new ≡ added (known pass.old) message)
            (λ back. (back ≡ message) × (known pass.new ≡ known pass.old)
            × Held 1024 (Leaves (both (known pass.old) (known other.old)))) }
    {
        admit_by::<T, K, R, Brand>(&self.queue, rt, &mut pass.seat, &mut other.seat, message)
    }

    /// `pick` for who has two passes, by the first: `None` only where none was there by both
    /// passes, if these are all that there are.
    pub fn pick_beside<R: Wait>(
        &self,
        rt: &R,
        pass: &mut Pass<T, K>,
        other: &mut Pass<T, K>,
    ) -> Option<T>
        requires of { IsOf self.now pass.old × IsOf self.now other.old }
        requires key { (known other.old).key ≡ (known pass.old).key }
        ensures of { IsOf self.now pass.new × IsOf self.now other.new }
        ensures other { known other.new ≡ known other.old }
        ensures rule { MatchOption result
            ((known pass.new ≡ known pass.old)
            × Held 0 (Leaves (both (known pass.old) (known other.old))))
            (λ message. (known pass.new ≡ taken (known pass.old) message)
            × FitsIn T.fits (known pass.old).key message) }
    {
        pick_by::<T, K, R, Brand>(&self.queue, rt, &mut pass.seat, &mut other.seat)
    }

    /// A pass cut in two. The first goes on with what it has put and picked; the second has put
    /// and picked nothing.
    pub fn split_pass(&self, pass: Pass<T, K>) -> (Pass<T, K>, Pass<T, K>)
        requires { IsOf self.now pass }
        ensures of { IsOf self.now result.0 × IsOf self.now result.1 }
        ensures first { known result.0 ≡ left (known pass) }
        ensures second { known result.1 ≡ right (known pass) }
    {
        let mut seat = pass.into_seat();
        let other = self.queue.another::<Cut>(&mut seat);
        (Pass { seat }, Pass { seat: other })
    }

    /// One pass with what both have put and picked.
    pub fn join_pass(&self, pass: Pass<T, K>, other: Pass<T, K>) -> Pass<T, K>
        requires { IsOf self.now pass × IsOf self.now other }
        ensures of { IsOf self.now result }
        ensures both { known result ≡ both (known pass) (known other) }
    {
        let mut seat = pass.into_seat();
        self.queue.absorb::<Glue>(&mut seat, other.into_seat());
        Pass { seat }
    }

    /// How many messages there were at one moment of the call.
    pub fn count<R: Wait>(&self, rt: &R, pass: &mut Pass<T, K>) -> usize
        requires { IsOf self.now pass.old }
        ensures same { IsOf self.now pass.new × (known pass.new ≡ known pass.old) }
        ensures most { result ≤ 1024 }
        ensures held { Held result (Leaves (known pass.old)) }
    {
        self.queue.len_as::<Picks, R>(rt, &mut pass.seat)
    }

    /// `count` for who has two passes: how many there were by both, if these are all that there
    /// are.
    pub fn count_beside<R: Wait>(
        &self,
        rt: &R,
        pass: &mut Pass<T, K>,
        other: &mut Pass<T, K>,
    ) -> usize
        requires of { IsOf self.now pass.old × IsOf self.now other.old }
        requires key { (known other.old).key ≡ (known pass.old).key }
        ensures same { (IsOf self.now pass.new × (known pass.new ≡ known pass.old))
            × (IsOf self.now other.new × (known other.new ≡ known other.old)) }
        ensures most { result ≤ 1024 }
        ensures held { Held result (Leaves (both (known pass.old) (known other.old))) }
    {
        count_by::<T, K, R, Brand>(&self.queue, rt, &mut pass.seat, &mut other.seat)
    }

    /// What the rule tells at one moment of the call.
    pub fn look(&self, pass: &mut Pass<T, K>)
        requires { IsOf self.now pass.old }
        ensures same { IsOf self.now pass.new × (known pass.new ≡ known pass.old) }
        ensures held { (items : List T) × Leaves (known pass.old) items }
    {
        self.queue.learn_as::<Picks>(&mut pass.seat)
    }
}
