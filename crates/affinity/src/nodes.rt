//! The nodes of a layout by number.

ghost use Rattle.std.specs.Prelude.{◌≡◌, ◌+◌, ◌<◌, ◌≤◌, ◌↔◌, length, slice_index, IsTrue};
ghost use Rattle.nfs_model.specs.Tree.{stripes_of};
ghost use Rattle.affinity.specs.Affinity.{affinity_of};
ghost use Rattle.affinity.specs.Layout.{layout_of};
ghost use Rattle.affinity.specs.Numbers.{node_count, number_of, parents, volume_number};
ghost use Rattle.affinity.specs.Tree.{IsNode};

use crate::affinity::Affinity;
use crate::layout::Layout;
use crate::rules::MOST_RANGES;

/// A volume's nodes beside its stripes: itself, its names, its block numbers and their ranges.
const OTHER_NODES: usize = 3 + MOST_RANGES as usize;

impl Layout {
    fn has_volume(&self, volume: u32) -> bool
        ensures { IsTrue result ↔ (volume < length (layout_of self.now).volumes) }
    {
        (volume as usize) < self.volume_count()
    }

    /// Whether the layout has an affinity: it has all 16 ranges of a volume, in use or not.
    pub fn contains(&self, affinity: Affinity) -> bool
        ensures { IsTrue result ↔ IsNode (layout_of self.now) (affinity_of affinity) }
    {
        match affinity {
            Affinity::Serial => true,
            Affinity::Aggregate(aggregate) => (aggregate as usize) < self.aggregate_count(),
            Affinity::Volume(volume) => self.has_volume(volume),
            Affinity::VolumeLogical(volume) => self.has_volume(volume),
            Affinity::Stripe { volume, stripe } => {
                self.has_volume(volume) && stripe < self.stripes_of(volume)
            }
            Affinity::VolumeVbn(volume) => self.has_volume(volume),
            Affinity::Range { volume, range } => self.has_volume(volume) && range < MOST_RANGES,
        }
    }

    /// How many nodes there are: they have the numbers from 1 to this one.
    pub fn node_count(&self) -> usize
        ensures count { result ≡ node_count (layout_of self.now) }
        ensures most { result ≤ 283 }
    {
        self.volume_number(self.volume_count()) - 1
    }

    /// How many nodes a volume has.
    fn volume_nodes(&self, volume: u32) -> usize
        ensures nodes { result ≡ 19 + stripes_of (layout_of self.now) volume }
        ensures most { result ≤ 35 }
    {
        OTHER_NODES + self.stripes_of(volume) as usize
    }

    /// The number of a volume's own node; past the last volume, the first number that is no node's.
    fn volume_number(&self, volume: usize) -> usize
        requires { volume ≤ length (layout_of self.now).volumes }
        ensures number { result ≡ volume_number (layout_of self.now) volume }
        ensures most { result ≤ 284 }
    {
        let mut number = 2 + self.aggregate_count();
        for earlier in 0..volume {
            number += self.volume_nodes(earlier as u32);
        }
        number
    }

    /// The number of a node. A parent has a smaller number than its children.
    #[tactic(auto, using(crate::specs::lemmas::Places::number_within))]
    pub fn number_of(&self, affinity: Affinity) -> usize
        requires { IsNode (layout_of self.now) (affinity_of affinity) }
        ensures number { result ≡ number_of (layout_of self.now) (affinity_of affinity) }
        ensures positive { 0 < result }
        ensures within { result ≤ node_count (layout_of self.now) }
    {
        match affinity {
            Affinity::Serial => 1,
            Affinity::Aggregate(aggregate) => 2 + aggregate as usize,
            Affinity::Volume(volume) => self.volume_number(volume as usize),
            Affinity::VolumeLogical(volume) => self.volume_number(volume as usize) + 1,
            Affinity::Stripe { volume, stripe } => {
                self.volume_number(volume as usize) + 2 + stripe as usize
            }
            Affinity::VolumeVbn(volume) => {
                self.volume_number(volume as usize) + 2 + self.stripes_of(volume) as usize
            }
            Affinity::Range { volume, range } => {
                self.volume_number(volume as usize)
                    + 3
                    + self.stripes_of(volume) as usize
                    + range as usize
            }
        }
    }

    /// The node of a volume at a place among its nodes.
    fn node_in_volume(&self, volume: u32, place: usize) -> Affinity
        requires there { volume < length (layout_of self.now).volumes }
        requires place { place < 19 + stripes_of (layout_of self.now) volume }
        ensures node { IsNode (layout_of self.now) (affinity_of result) }
        ensures number { number_of (layout_of self.now) (affinity_of result)
            ≡ volume_number (layout_of self.now) volume + place }
    {
        let stripes = self.stripes_of(volume) as usize;
        if place == 0 {
            return Affinity::Volume(volume);
        }
        if place == 1 {
            return Affinity::VolumeLogical(volume);
        }
        if place < 2 + stripes {
            return Affinity::Stripe {
                volume,
                stripe: (place - 2) as u32,
            };
        }
        if place == 2 + stripes {
            return Affinity::VolumeVbn(volume);
        }
        Affinity::Range {
            volume,
            range: (place - 3 - stripes) as u32,
        }
    }

    /// The node that has a number.
    pub fn affinity_at(&self, number: usize) -> Affinity
        requires positive { 0 < number }
        requires within { number ≤ node_count (layout_of self.now) }
        ensures node { IsNode (layout_of self.now) (affinity_of result) }
        ensures number { number_of (layout_of self.now) (affinity_of result) ≡ number }
    {
        if number == 1 {
            return Affinity::Serial;
        }
        let first = self.volume_number(0);
        if number < first {
            return Affinity::Aggregate((number - 2) as u32);
        }
        let mut place = number - first;
        let last = self.volume_count() as u32 - 1;
        for volume in 0..last {
            let nodes = self.volume_nodes(volume);
            if place < nodes {
                return self.node_in_volume(volume, place);
            }
            place -= nodes;
        }
        self.node_in_volume(last, place)
    }

    /// The number of a node's parent; 0 for the root, which has none.
    pub fn parent_number(&self, number: usize) -> usize
        requires positive { 0 < number }
        requires within { number ≤ node_count (layout_of self.now) }
        ensures parent { result ≡ slice_index (parents (layout_of self.now)) number }
        ensures smaller { result < number }
    {
        match self.affinity_at(number).parent(self) {
            Some(parent) => self.number_of(parent),
            None => 0,
        }
    }
}
