//! Parts of sequences.

ghost use Rattle.std.specs.Prelude.{◌≡◌, ◌+◌, ◌-◌, ◌<◌, ◌≤◌, ◌^◌, List, length, Some};
ghost use Rattle.std.specs.List.{slice_get};
ghost use Rattle.directories.specs.sequences.Values.{HasPositions};

use crate::sequences::tree::Tree;
use std::marker::Model;

/// A part of a sequence, in which an item is found sooner than in the whole.
#[derive(Drop)]
pub struct Part<'a, T> {
    tree: &'a Tree<T>,
    /// The position in the sequence that it begins at.
    first: usize,
}

impl<'a, T> Model for Part<'a, T> {
    ghost use Rattle.std.specs.Prelude.{◌+◌, ◌<◌, ◌^◌, length};
    ghost use Rattle.directories.specs.sequences.Values.{PartValue};

    ghost Value = { PartValue T };

    ghost view = { λ p. record { first = p.first; items = p.tree.now.items } };

    ghost invariant = { λ p. p.first + length p.tree.now.items < 2 ^ 64 };
}

impl<'a, T: Copy> Part<'a, T> {
    /// The part that has all.
    pub(crate) fn whole(tree: &'a Tree<T>) -> Part<'a, T>
        ensures { (all : List T)
            → all ≡ tree.now.items
            → HasPositions all 0 (length all) result.first result.items }
    {
        let _len = tree.len();
        Part { tree, first: 0 }
    }

    /// A part of this one that still has the items between two positions.
    pub fn narrowed(self, low: usize, high: usize) -> Part<'a, T>
        ensures { (all : List T)
            → HasPositions all low high self.entry.first self.entry.items
            → HasPositions all low high result.first result.items }
    {
        let (tree, first) = self.tree.narrowed(self.first, low, high);
        Part { tree, first }
    }

    /// The item at a position of the sequence that is in the part.
    pub fn at(&self, position: usize) -> T
        requires begins { self.now.first ≤ position }
        requires ends { position < self.now.first + length self.now.items }
        ensures { slice_get self.now.items (position - self.now.first) ≡ Some result }
    {
        self.tree.run_at(position - self.first)[0]
    }
}
