//! The depot, made and shared.

ghost use Rattle.std.specs.Prelude.{◌≡◌, ℕ, None, length, replicate, IfOk};
ghost use Rattle.affinity.specs.Layout.{layout_of};
ghost use Rattle.affinity.specs.Numbers as numbers;

use crate::closed::ClosedTable;
use crate::meeting::{join_seat, meet, split_seat};
use crate::seats::{Seat, TooManySeats};
use crate::table::{DepotRule, Key, Opening, TableSeat, ViewsOf};
use affinity::{Affinity, Layout};
use atomic_table::Table;
use depot_rule::machine::Machine;
use parcels::{Node, VecShelf};
use std::alloc::{AllocError, Global};
use std::snapshot::Snapshot;

/// Parcels that threads share.
#[derive(Drop)]
pub struct Depot<M: Machine> {
    pub(crate) table: Table<Option<M::Parcel>, ViewsOf<M>, Key<M>, DepotRule<M>, Global>,
    pub(crate) layout: Layout,
    // The number of each node's parent, by the node's number.
    pub(crate) parents: Vec<u64>,
    ghost words: { table.shared.table_id.words ≡ length parents.items },
    ghost tree: { parents.items ≡ table.shared.key.value.parents.items },
    ghost layout_tree: { parents.items ≡ numbers.parents (layout_of layout) },
}

fn zeros(alloc: Global, n: usize) -> Result<Vec<u64>, AllocError>
    ensures { IfOk result (λ words. words.items ≡ replicate n 0) }
{
    vec![in alloc; 0; n]
}

/// The number of each node's parent, by the node's number.
fn parents_of(alloc: Global, layout: &Layout) -> Result<Vec<u64>, AllocError>
    ensures { IfOk result (λ parents. parents.items ≡ numbers.parents (layout_of layout.now)) }
{
    let mut parents = zeros(alloc, layout.node_count() + 1)?;
    for number in 1..layout.node_count() + 1 {
        parents[number] = layout.parent_number(number) as u64;
    }
    Ok(parents)
}

/// The number of each node's parent, this many zeros, and an empty shelf for this many parcels.
fn room_for<T: Drop>(
    alloc: Global,
    layout: &Layout,
    n: usize,
) -> Result<(Vec<u64>, Vec<u64>, VecShelf<T>), AllocError>
    ensures parents { IfOk result (λ made. made.0.items ≡ numbers.parents (layout_of layout.now)) }
    ensures words { IfOk result (λ made. made.1.items ≡ replicate n 0) }
    ensures shelf { IfOk result (λ made. made.2.parcels.items ≡ replicate n None) }
{
    let parents = parents_of(alloc, layout)?;
    let words = zeros(alloc, n)?;
    let shelf = VecShelf::new(alloc, n)?;
    Ok((parents, words, shelf))
}

impl<M: Machine> Depot<M> {
    ghost use Rattle.std.specs.Prelude.{◌⊎◌, ◌<◌, ◌+◌, [], IfErr};
    ghost use Rattle.nfs_model.specs.Tree as trees;
    ghost use Rattle.affinity.specs.declared.affinity.Kind.TheVariants as kinds;
    ghost use Rattle.parcels.specs.Exact.{HasExactly};
    ghost use Rattle.depot_rule.specs.Sums.{total};
    ghost use Rattle.depot_rule.specs.Shares.{Has};
    ghost use Rattle.depot_rule.specs.Seats.{fresh, merge};
    ghost use Rattle.depot_rule.specs.Plays.{AreApart, HaveSeenOne};
    ghost use Rattle.depot_rule.specs.History.{entries_of};
    ghost use Rattle.depot.specs.Grants.{IsClosed};
    ghost use Rattle.depot.specs.Words.{machine_of, layout_in, view, splits_left, IsSeatHere};
    ghost use Rattle.depot.specs.Words.{HasTold, all_parcels, first_view, HasGrants, HasNoGrant};

    /// A depot of a layout with the parcels of all nodes, and its first seat. Without memory the
    /// parcels come back.
    pub fn new<N: Node<M::Parcel>>(
        alloc: Global,
        layout: Layout,
        parcels: N::Held,
    ) -> Result<(Depot<M>, Seat<M>), N::Held>
        requires root { N.KIND ≡ kinds.Serial }
        requires exact { let L = layout_of layout in
            HasExactly M.Parcel.kind L trees.Serial (all_parcels N.parcels L parcels) }
        requires invariant { let L = layout_of layout in
            M.invariant (numbers.parents L) (all_parcels N.parcels L parcels) [] 0 }
        ensures made { IfOk result (λ made. (layout_in made.0 ≡ layout_of layout)
            × (view made.1
            ≡ first_view (layout_of layout) (all_parcels N.parcels (layout_of layout) parcels))) }
        ensures seat { IfOk result (λ made. IsSeatHere made.0 made.1) }
        ensures only { IfOk result (λ made. splits_left made.1 ≡ 63) }
        ensures refused { let L = layout_of layout in IfErr result (λ back. (k : ℕ)
            → all_parcels N.parcels L back k ≡ all_parcels N.parcels L parcels k) }
    {
        let n = layout.node_count() + 1;
        let Ok((parents, words, mut shelf)) = room_for(alloc, &layout, n) else {
            return Err(parcels);
        };
        N::scatter(&mut shelf, &layout, Affinity::Serial, parcels);
        let opening = Opening {
            parents,
            parcels: shelf.parcels,
        };
        let key: Key<M> = Snapshot::of(&opening);
        let Opening { parents, parcels } = opening;
        match Table::new(alloc, words.as_slice(), parcels, &key) {
            Ok((table, place)) => {
                let seat = Seat {
                    badge: place.into_badge(),
                    splits: 63,
                };
                let depot = Depot {
                    table,
                    layout,
                    parents,
                };
                Ok((depot, seat))
            }
            Err(refused) => {
                let mut shelf = VecShelf {
                    parcels: refused.slots,
                };
                Err(N::gather(&mut shelf, &layout, Affinity::Serial))
            }
        }
    }

    /// The layout that the depot was made of.
    pub fn layout(&self) -> &Layout
        ensures { layout_of result.now ≡ layout_in self.now }
    {
        &self.layout
    }

    /// Splits a second seat off, which has seen the same and has nothing open. A seat with no split
    /// left comes back.
    pub fn split_seat(&self, seat: Seat<M>) -> Result<(Seat<M>, Seat<M>), TooManySeats<M>>
        requires seat { IsSeatHere self.now seat }
        ensures first { IfOk result (λ two. IsSeatHere self.now two.0) }
        ensures second { IfOk result (λ two. IsSeatHere self.now two.1) }
        ensures split { IfOk result (λ two. (0 < splits_left seat)
            × (view two.0 ≡ record (view seat) { parts = splits_left seat })
            × (view two.1 ≡ fresh (view seat))) }
        ensures splits { IfOk result (λ two. (splits_left two.0 + 1 ≡ splits_left seat)
            × (splits_left two.1 ≡ 0)) }
        ensures refused { IfErr result (λ refused. (splits_left seat ≡ 0) × (refused.seat ≡ seat)) }
    {
        match split_seat(&self.table.shared, seat) {
            Ok(two) => Ok(two),
            Err(seat) => Err(TooManySeats { seat }),
        }
    }

    /// Makes one seat of two, with the splits of both and one more, and the grants and entries of
    /// both.
    pub fn join_seat(&self, first: Seat<M>, second: Seat<M>) -> Seat<M>
        requires first { IsSeatHere self.now first }
        requires second { IsSeatHere self.now second }
        ensures seat { IsSeatHere self.now result }
        ensures joined { view result ≡ merge (view first) (view second) }
        ensures apart { AreApart (view first) (view second) }
        ensures grants { HasGrants (view first) result × HasGrants (view second) result }
        ensures no_other { (b : ℕ) (g : _)
            → Has (view result) b g
            → Has (view first) b g ⊎ Has (view second) b g }
        ensures one_history { HaveSeenOne (view first) (view second) }
        ensures entries { (weigh : _ → ℕ) → total weigh (entries_of (view result))
            ≡ total weigh (entries_of (view first)) + total weigh (entries_of (view second)) }
        ensures splits { splits_left result ≡ splits_left first + splits_left second + 1 }
    {
        join_seat(&self.table.shared, first, second)
    }

    /// Two seats tell each other what they have seen.
    pub fn meet(&self, one: &mut Seat<M>, other: &mut Seat<M>)
        requires one { IsSeatHere self.now one.old }
        requires other { IsSeatHere self.now other.old }
        ensures one_here { IsSeatHere self.now one.new }
        ensures other_here { IsSeatHere self.now other.new }
        ensures one { HasTold one.old other.old one.old one.new }
        ensures other { HasTold one.old other.old other.old other.new }
        ensures one_history { HaveSeenOne (view one.old) (view other.old) }
        ensures entries { (entries_of (view one.new) ≡ entries_of (view one.old))
            × (entries_of (view other.new) ≡ entries_of (view other.old)) }
        ensures splits { (splits_left one.new ≡ splits_left one.old)
            × (splits_left other.new ≡ splits_left other.old) }
    {
        meet(&self.table.shared, one, other);
    }

    /// Ends the depot. Its only seat, which has no grant, gets all parcels.
    pub fn close<N: Node<M::Parcel>>(self, seat: Seat<M>) -> N::Held
        requires root { N.KIND ≡ kinds.Serial }
        requires seat { IsSeatHere self seat }
        requires only { splits_left seat ≡ 63 }
        requires none_open { HasNoGrant seat }
        ensures exact { HasExactly M.Parcel.kind (layout_in self) trees.Serial
            (all_parcels N.parcels (layout_in self) result) }
        ensures entries { (weigh : _ → ℕ)
            → total weigh (entries_of (view seat)) ≡ total weigh (view seat).seen }
        ensures history { IsClosed (machine_of seat)
            (view seat) (all_parcels N.parcels (layout_in self) result) }
    {
        let Depot {
            table,
            layout,
            parents: _,
        } = self;
        let Seat { badge, splits: _ } = seat;
        let place: TableSeat<M> = badge.into_seat();
        let mut closed = ClosedTable {
            table: table.close_with(place),
        };
        let held = N::gather(&mut closed, &layout, Affinity::Serial);
        closed.free();
        held
    }
}
