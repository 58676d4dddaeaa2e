//! Names of affinities.

ghost use Rattle.std.specs.Prelude.{Some};
ghost use Rattle.affinity.specs.Affinity.{affinity_text, call_affinity};

use crate::affinity::{Affinity, CallNode};
use std::fmt;

impl fmt::Display for Affinity {
    ghost output = { λ a. Some (affinity_text a) };

    fn fmt<W: fmt::Write>(&self, f: &mut fmt::Formatter<W>) -> fmt::Result {
        match *self {
            Affinity::Serial => write!(f, "serial"),
            Affinity::Aggregate(aggregate) => write!(f, "aggregate {aggregate}"),
            Affinity::Volume(volume) => write!(f, "volume {volume}"),
            Affinity::VolumeLogical(volume) => write!(f, "logical {volume}"),
            Affinity::Stripe { volume, stripe } => write!(f, "stripe {volume} {stripe}"),
            Affinity::VolumeVbn(volume) => write!(f, "vbn {volume}"),
            Affinity::Range { volume, range } => write!(f, "range {volume} {range}"),
        }
    }
}

impl fmt::Display for CallNode {
    ghost output = { λ h. Some (affinity_text (call_affinity h)) };

    fn fmt<W: fmt::Write>(&self, f: &mut fmt::Formatter<W>) -> fmt::Result {
        match *self {
            CallNode::Stripe { volume, stripe } => write!(f, "stripe {volume} {stripe}"),
            CallNode::Logical(volume) => write!(f, "logical {volume}"),
            CallNode::Volume(volume) => write!(f, "volume {volume}"),
            CallNode::Aggregate(aggregate) => write!(f, "aggregate {aggregate}"),
            CallNode::Serial => write!(f, "serial"),
        }
    }
}
