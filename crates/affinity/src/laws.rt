//! What holds of the tree and of its numbers. The functions do nothing: their contracts are
//! theorems about the definitions.

ghost use Rattle.std.specs.Prelude.{◌≡◌, ◌↔◌, ◌⊎◌, ◌+◌, ◌<◌, ◌≤◌, ℕ, true, None};
ghost use Rattle.std.specs.Prelude.{length, slice_index};
ghost use Rattle.nfs_model.specs.Tree.{Affinity, Layout, aggregate_of, excludes, stripes_of};
ghost use Rattle.affinity.specs.Alike.{AreAlike};
ghost use Rattle.affinity.specs.Ancestors.{Covers, Excludes, IsTree};
ghost use Rattle.affinity.specs.Fault.{fault_of};
ghost use Rattle.affinity.specs.Tree.{IsNode, is_above, parent_of};
ghost use Rattle.affinity.specs.Under.{IsUnder, ShareParcel};
ghost use Rattle.affinity.specs.Numbers.{node_count, number_of, number_or_none, parents};

/// Each node has a number of its own, and the numbers have no gap.
pub fn numbers_are_their_own()
    ensures within { (layout : Layout) (a : Affinity)
        → IsNode layout a
        → (0 < number_of layout a) × (number_of layout a ≤ node_count layout) }
    ensures own { (layout : Layout) (a b : Affinity)
        → IsNode layout a
        → IsNode layout b
        → number_of layout a ≡ number_of layout b
        → a ≡ b }
    ensures all { (layout : Layout) (n : ℕ)
        → 0 < n
        → n ≤ node_count layout
        → (a : Affinity) × IsNode layout a × (number_of layout a ≡ n) }
{}

/// The list of parents: by each node's number stands that of its parent, which is smaller.
pub fn parents_have_smaller_numbers()
    ensures size { (layout : Layout) → length (parents layout) ≡ 1 + node_count layout }
    ensures parent { (layout : Layout) (a : Affinity)
        → IsNode layout a
        → slice_index (parents layout) (number_of layout a)
        ≡ number_or_none layout (parent_of layout a) }
    ensures smaller { (layout : Layout) (n : ℕ)
        → fault_of layout ≡ None
        → 0 < n
        → slice_index (parents layout) n < n }
{}

/// Two affinities exclude each other where they are one or one is above the other; of a layout's
/// nodes exactly when a parcel is under both.
pub fn exclusion_is_sharing()
    ensures above { (layout : Layout) (a b : Affinity)
        → ((excludes layout a b ≡ true)
        ↔ ((a ≡ b) ⊎ ((is_above layout a b ≡ true) ⊎ (is_above layout b a ≡ true)))) }
    ensures shared { (layout : Layout) (a b : Affinity)
        → IsNode layout a
        → IsNode layout b
        → ((excludes layout a b ≡ true) ↔ ShareParcel layout a b) }
{}

/// Node numbers stand for nodes: what a node's number covers is the number of a node under it, and
/// two numbers exclude each other exactly when their nodes do.
pub fn numbers_stand_for_nodes()
    ensures tree { (layout : Layout) → fault_of layout ≡ None → IsTree (parents layout) }
    ensures place { (layout : Layout) (a : Affinity)
        → IsNode layout a
        → (0 < number_of layout a) × (number_of layout a < length (parents layout)) }
    ensures node { (layout : Layout) (k : ℕ)
        → 0 < k
        → k < length (parents layout)
        → (a : Affinity) × IsNode layout a × (number_of layout a ≡ k) }
    ensures covers { (layout : Layout) (a b : Affinity)
        → fault_of layout ≡ None
        → IsNode layout a
        → IsNode layout b
        → (Covers (parents layout) (number_of layout a) (number_of layout b) ↔ IsUnder layout a b) }
    ensures excludes { (layout : Layout) (a b : Affinity)
        → fault_of layout ≡ None
        → IsNode layout a
        → IsNode layout b
        → (Excludes (parents layout) (number_of layout a) (number_of layout b)
        ↔ (excludes layout a b ≡ true)) }
{}

/// Two layouts with one list of parents have the same nodes under the same numbers, whatever else
/// is in them.
pub fn parents_tell_the_tree()
    ensures { (l m : Layout) → parents l ≡ parents m → AreAlike l m }
{}

/// A layout that breaks no rule has few nodes, and each volume an aggregate and 8 or 16 stripes.
pub fn lawful_layouts_are_small()
    ensures nodes { (layout : Layout) → fault_of layout ≡ None → node_count layout ≤ 283 }
    ensures aggregates { (layout : Layout) → fault_of layout ≡ None → length layout.spare ≤ 2 }
    ensures volumes { (layout : Layout) → fault_of layout ≡ None → length layout.volumes ≤ 8 }
    ensures aggregate { (layout : Layout) (v : ℕ)
        → fault_of layout ≡ None
        → v < length layout.volumes
        → aggregate_of layout v < length layout.spare }
    ensures stripes { (layout : Layout) (v : ℕ)
        → fault_of layout ≡ None
        → (stripes_of layout v ≡ 8) ⊎ (stripes_of layout v ≡ 16) }
{}
