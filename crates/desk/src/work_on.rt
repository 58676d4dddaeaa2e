//! Work on the parcels under a node of one kind.

ghost use Rattle.std.specs.Prelude.{Result};
ghost use Rattle.affinity.specs.Affinity.{affinity_of};
ghost use Rattle.affinity.specs.Layout.{layout_of};
ghost use Rattle.affinity.specs.Tree.{IsNode};
ghost use Rattle.desk.specs.Any.{node_lent};
ghost use Rattle.desk.specs.Tasks.{HasAll, Finds, Leaves};
ghost use Rattle.desk.specs.laws.Backing.{IsWhole, IsDone};
ghost use Rattle.desk.specs.laws.Calls.{Asks, DoesTask};

use crate::grant::NodeGrant;
use affinity::{Affinity, HasKind, Layout};
use parcels::Node;

/// Work on the parcels under a node of one kind. It comes to a reply `A`, or to `U` where it isn't
/// done. It changes parcels and takes none away.
pub trait WorkOn<T: HasKind, N: Node<T>, A, U> {
    // What it needs of the layout, the affinity and its parcels.
    ghost asks: { Self → Asks T };

    // Of the layout, the affinity, its parcels before, what comes of it, and its parcels after.
    ghost does: { Self → DoesTask T (Result A U) };

    /// Works on the parcels of the node.
    fn work_on(self, layout: &Layout, affinity: Affinity, held: &mut N::Held) -> Result<A, U>
        requires node { IsNode (layout_of layout.now) (affinity_of affinity) }
        requires exact { HasAll T.kind N.parcels layout.now affinity held.old }
        requires asks { Finds (asks self) N.parcels layout.now affinity held.old }
        ensures exact { HasAll T.kind N.parcels layout.now affinity held.new }
        ensures does { Leaves (does self) N.parcels layout.now affinity
            held.old result held.new };
}

/// Does work on the parcels that were granted under a node.
pub fn work_on_node<T: HasKind, N: Node<T>, A, U, W: WorkOn<T, N, A, U>>(
    layout: &Layout,
    node: &mut NodeGrant<T, N>,
    work: W,
) -> Result<A, U>
    requires node { let L = layout_of layout.now in IsNode L (node_lent L node.old).affinity }
    requires whole { let L = layout_of layout.now in
        IsWhole T.kind L (node_lent L node.old) }
    requires asks { let L = layout_of layout.now in let l = node_lent L node.old in
        W.asks work L l.affinity l.parcels }
    ensures whole { let L = layout_of layout.now in
        IsWhole T.kind L (node_lent L node.new) }
    ensures done { let L = layout_of layout.now in
        IsDone (W.does work) L (node_lent L node.old) result (node_lent L node.new) }
{
    let affinity = node.grant.affinity();
    work.work_on(layout, affinity, node.grant.held())
}
