//! Numbers of blocks that a cut frees.

ghost use Rattle.std.specs.Prelude.{◌≡◌, ◌<◌, ◌++◌, ◌∷◌, [], length};
ghost use Rattle.nfs_model.specs.volume.Stripes.{span_blocks};
ghost use Rattle.stripes.specs.Numbers.{numbers};

use nfs_values::BlockNumber;
use std::marker::Model;

/// When the memory of the blocks that a cut takes is given back.
#[derive(Clone, Copy)]
pub enum GiveBack {
    /// By the cut itself.
    AtOnce,
    /// By `Stripe::give_back`, where there is memory to keep their spans in mind. That of the span
    /// in which the new size lies is given back at once.
    Later,
}

/// The numbers of the blocks that a cut takes out of a span, at most 64.
#[derive(Drop)]
pub struct FreedBlocks {
    blocks: [BlockNumber; 64],
    count: usize,
}

impl Model for FreedBlocks {
    ghost use Rattle.std.specs.Prelude.{ℕ, List};
    ghost use Rattle.stripes.specs.Numbers.{first_numbers, AreInPlace};

    ghost Value = { List ℕ };

    ghost view = { λ f. first_numbers f.count f.blocks };

    ghost invariant = { λ f. AreInPlace f.count f.blocks };
}

impl FreedBlocks {
    /// No number, as a buffer for `Stripe::cut`.
    pub fn new() -> FreedBlocks
        ensures { result ≡ [] }
    {
        FreedBlocks {
            blocks: [BlockNumber(0); 64],
            count: 0,
        }
    }

    /// The numbers, by the blocks' places in the file.
    pub fn as_slice(&self) -> &[BlockNumber]
        ensures { numbers result.now ≡ self.now }
    {
        &self.blocks[..self.count]
    }

    /// Forgets all numbers.
    pub(crate) fn clear(&mut self)
        ensures { self.new ≡ [] }
    {
        self.count = 0;
    }

    /// Adds a number after the others.
    pub(crate) fn push(&mut self, block: BlockNumber)
        requires { length self.old < span_blocks }
        ensures { self.new ≡ self.old ++ block.0 ∷ [] }
    {
        self.blocks[self.count] = block;
        self.count += 1;
    }
}
