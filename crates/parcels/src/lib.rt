//! Parcels of the tree of affinities, and typed sets of them: each node's parcel with those of all
//! nodes below it. A set is put together from a shelf of parcels and taken apart without memory.
#![tactic(auto)]

mod around;
mod children;
mod family;
mod gather;
mod hand;
mod node;
mod nodes;
mod numbers;
mod own;
mod scatter;
mod sets;
mod shelf;
mod slots;
mod vec_shelf;

pub use around::{aggregate_number, stripe_number, volume_number};
pub use family::{Family, Parcel};
pub use hand::Hand;
pub use node::Node;
pub use nodes::{
    AggregateNode, LogicalNode, RangeNode, SerialNode, StripeNode, VbnNode, VolumeNode,
};
pub use numbers::Numbers;
pub use sets::{AggrHeld, LogicalHeld, RangeHeld, SerialHeld, StripeHeld, VbnHeld, VolumeHeld};
pub use shelf::Shelf;
pub use slots::{SlotArray, eight_slots, sixteen_slots, two_slots};
pub use vec_shelf::VecShelf;
