//! Batches of block numbers.

ghost use Rattle.std.specs.Prelude.{◌≡◌, ◌==◌, ◌<◌, ◌++◌, ◌∷◌, [], length};
ghost use Rattle.nfs_model.specs.Parts.{most_carried};
ghost use Rattle.nfs_model.specs.Parts.{IsAscending};
ghost use Rattle.vbn_ranges.specs.Batch.{numbers, AreCarried, batch_range};

use nfs_values::BlockNumber;
use std::marker::Model;

/// At most 64 block numbers, ascending.
#[derive(Drop)]
pub struct Batch {
    blocks: [BlockNumber; 64],
    count: usize,
}

impl Model for Batch {
    ghost use Rattle.std.specs.Prelude.{ℕ, List};
    ghost use Rattle.vbn_ranges.specs.Batch.{first_numbers, AreInPlace};

    ghost Value = { List ℕ };

    ghost view = { λ b. first_numbers b.count b.blocks };

    ghost invariant = { λ b. AreInPlace b.count b.blocks };
}

impl Batch {
    /// No block.
    pub fn new() -> Batch
        ensures { result ≡ [] }
    {
        Batch {
            blocks: [BlockNumber(0); 64],
            count: 0,
        }
    }

    /// The number of blocks.
    pub fn len(&self) -> usize
        ensures value { result ≡ length self.now }
        ensures carried { AreCarried self.now }
    {
        self.count
    }

    /// Whether there is no block.
    pub fn is_empty(&self) -> bool
        ensures { result ≡ (length self.now == 0) }
    {
        self.count == 0
    }

    /// The range of the first block, where a range has this many blocks; without a block there is
    /// none.
    pub fn range(&self, range_blocks: u32) -> Option<u32>
        requires { 0 < range_blocks }
        ensures { result ≡ batch_range range_blocks self.now }
    {
        let first = self.as_slice().first()?;
        Some(first.0 / range_blocks)
    }

    /// The blocks, ascending.
    pub fn as_slice(&self) -> &[BlockNumber]
        ensures value { numbers result.now ≡ self.now }
        ensures carried { AreCarried self.now }
    {
        &self.blocks[..self.count]
    }

    /// Adds a block after the others.
    pub(crate) fn push(&mut self, block: BlockNumber)
        requires room { length self.old < most_carried }
        requires ascending { IsAscending (self.old ++ block.0 ∷ []) }
        ensures { self.new ≡ self.old ++ block.0 ∷ [] }
    {
        self.blocks[self.count] = block;
        self.count += 1;
    }
}
