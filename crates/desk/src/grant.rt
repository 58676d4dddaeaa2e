//! Grants of nodes of any kind.

ghost use Rattle.std.specs.Prelude.{◌≡◌};
ghost use Rattle.affinity.specs.Affinity.{affinity_of, kind_of};
ghost use Rattle.depot.specs.Words.{node_of};

use crate::kinds::NodeKinds;
use affinity::{Affinity, HasKind};
use depot::Grant;
use parcels::Node;

/// A grant of a node of one kind.
#[derive(Drop)]
pub struct NodeGrant<T: HasKind, N: Node<T>> {
    pub(crate) grant: Grant<T, N>,
    pub ghost kind: { kind_of (affinity_of (node_of grant)) ≡ N.KIND },
}

/// A grant of a volume, or of a node below one.
#[derive(Drop)]
pub enum SmallGrant<T: HasKind, K: NodeKinds<T>> {
    Stripe(NodeGrant<T, K::Stripe>),
    Logical(NodeGrant<T, K::Logical>),
    Volume(NodeGrant<T, K::Volume>),
}

/// A grant of a node with volumes below it.
#[derive(Drop)]
pub enum LargeGrant<T: HasKind, K: NodeKinds<T>> {
    Aggregate(NodeGrant<T, K::Aggregate>),
    Serial(NodeGrant<T, K::Serial>),
}
