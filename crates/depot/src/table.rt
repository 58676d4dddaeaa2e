//! The table that all seats share: a word and a slot for each node, and the ticket.

use atomic_table::{Seat, Shared, TableRule};
use depot_rule::machine::Machine;
use depot_rule::view::{Entry, Views};
use std::marker::PhantomData;
use std::snapshot::Snapshot;

/// What is fixed when a depot is made: the parent of each node, and the parcels by node.
pub struct Opening<P> {
    pub parents: Vec<u64>,
    pub parcels: Vec<Option<P>>,
}

pub type Key<M> = Snapshot<Opening<<M as Machine>::Parcel>>;

/// An entry of a machine's history.
pub type EntryOf<M> = Entry<<M as Machine>::Parcel, <M as Machine>::Call, <M as Machine>::Reply>;

/// The views of a seat of a machine's depot.
pub type ViewsOf<M> = Views<<M as Machine>::Parcel, EntryOf<M>>;

/// What holds between any two steps.
pub struct DepotRule<M> {
    machine: PhantomData<M>,
}

impl<M: Machine> TableRule<Option<M::Parcel>, ViewsOf<M>, Key<M>> for DepotRule<M> {
    ghost use Rattle.std.specs.Prelude.{[], ◌∷◌};
    ghost use Rattle.depot_rule.specs.History.{behaviour};
    ghost use Rattle.depot_rule.specs.Rule.{Rule};
    ghost use Rattle.depot_rule.specs.Shares.{opening_view};

    ghost holds = { λ key s. Rule M.Parcel.kind (behaviour M.steps M.takes M.gives M.invariant)
        key.value.parents.items key.value.parcels.items s };

    ghost first = { λ key. opening_view key.value.parents.items key.value.parcels.items ∷ [] };
}

/// What seats step on. Word 0 is the ticket and word k the node k's; slot k has its parcel.
pub type Board<M> = Shared<Option<<M as Machine>::Parcel>, ViewsOf<M>, Key<M>, DepotRule<M>>;

/// A seat while a call runs: it may have a slot.
pub type TableSeat<M> = Seat<Option<<M as Machine>::Parcel>, ViewsOf<M>>;
