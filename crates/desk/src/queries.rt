//! What is asked of a desk, whose books stay as they are.

ghost use Rattle.std.specs.Prelude.{◌≡◌, ◌↔◌, true, length};

use crate::desk::Desk;
use crate::kinds::NodeKinds;
use crate::putting::is_idle_slot;
use crate::taken::is_taken;
use affinity::{Affinity, Layout};
use depot_rule::machine::Machine;

impl<M: Machine, K: NodeKinds<M::Parcel>> Desk<M, K> {
    ghost use Rattle.affinity.specs.Affinity.{affinity_of};
    ghost use Rattle.affinity.specs.Layout.{layout_of};
    ghost use Rattle.desk.specs.laws.Books.{IsIdle, IsTaken};
    ghost use Rattle.desk.specs.Words.{books};

    /// The layout that the desk was made of.
    pub fn layout(&self) -> &Layout
        ensures { layout_of result.now ≡ (books self.now).layout }
    {
        self.depot.layout()
    }

    /// How many workers there are, from 0 on.
    pub fn worker_count(&self) -> usize
        ensures { result ≡ length (books self.now).lent }
    {
        self.slots.len()
    }

    /// Whether a worker is there and was lent nothing.
    pub fn is_idle(&self, worker: usize) -> bool
        ensures { (result ≡ true) ↔ IsIdle (books self.now) worker }
    {
        if worker >= self.slots.len() {
            return false;
        }
        is_idle_slot(&self.slots[worker])
    }

    /// Whether something is lent that excludes an affinity. It goes over the workers once.
    pub fn is_taken(&self, affinity: Affinity) -> bool
        ensures { (result ≡ true) ↔ IsTaken (books self.now) (affinity_of affinity) }
    {
        is_taken(self.depot.layout(), &self.slots, affinity)
    }
}
