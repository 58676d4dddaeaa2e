//! The dead blocks of a volume.

ghost use Rattle.std.specs.Prelude.{
  ◌≡◌,
  ◌<◌,
  ◌≤◌,
  ◌+◌,
  ◌*◌,
  ◌∷◌,
  [],
  ◌==◌,
  ℕ,
  length,
  IfOk,
  IfNone,
  IfSome,
};
ghost use Rattle.std.specs.FinSet as sets;
ghost use Rattle.std.specs.FinSet.{len};
ghost use Rattle.std.specs.Option.{option_map};
ghost use Rattle.nfs_model.specs.Parts.{most_ranges};
ghost use Rattle.nfs_model.specs.Moves.{lowest_batch};
ghost use Rattle.nfs_model.specs.volume.Ranges.{
  dead_marked,
  dead_taken,
  no_dead,
  without_numbers,
  IsOfVolume,
  IsRangeSize,
};
ghost use Rattle.vbn_ranges.specs.Batch.{first_of};
ghost use Rattle.vbn_ranges.specs.Dead.{all_of, lowest_dead, lowest_of, AreNumbered};

use crate::batch::Batch;
use crate::looks::Looks;
use crate::marks::Marks;
use nfs_values::BlockNumber;
use std::alloc::{AllocError, Global};
use std::marker::Model;

/// The block numbers that files have left and that aren't free yet.
pub struct DeadBlocks {
    /// How many blocks a range has.
    range_blocks: u32,
    /// Those of each range.
    ranges: Vec<Marks>,
    /// How many there are.
    count: usize,
}

// By hand, so that crates above have no proof of the drop of each of its parts.
impl Drop for DeadBlocks {
    fn drop(self) {
        let DeadBlocks {
            range_blocks: _,
            ranges: _,
            count: _,
        } = self;
    }
}

impl Model for DeadBlocks {
    ghost use Rattle.nfs_model.specs.volume.Ranges.{DeadValue};
    ghost use Rattle.nfs_model.specs.volume.Codes.{coded_dead};
    ghost use Rattle.vbn_ranges.specs.Dead.{dead_of, AreDead};

    ghost Value = { DeadValue };

    ghost coded = { coded_dead };

    ghost view = { λ d. dead_of d.range_blocks d.ranges.items };

    ghost invariant = { λ d. AreDead d.range_blocks d.ranges.items d.count };
}

impl DeadBlocks {
    /// No block, and room for all that a volume has at most, where a range has this many blocks.
    pub fn new(alloc: Global, range_blocks: u32) -> Result<DeadBlocks, AllocError>
        requires { IsRangeSize range_blocks }
        ensures { IfOk result (λ d. d ≡ no_dead range_blocks) }
    {
        let mut ranges = Vec::with_capacity(alloc, 16)?;
        for range in 0..16 {
            ranges.push(Marks::none(alloc, range_blocks, range)?)?;
        }
        Ok(DeadBlocks {
            range_blocks,
            ranges,
            count: 0,
        })
    }

    /// The number of blocks.
    pub fn len(&self) -> usize
        ensures value { result ≡ len self.now.blocks }
        ensures volume { IsOfVolume self.now.range_blocks self.now.blocks }
        ensures size { IsRangeSize self.now.range_blocks }
    {
        self.count
    }

    /// How many blocks a range has.
    pub fn range_blocks(&self) -> u32
        ensures value { result ≡ self.now.range_blocks }
        ensures size { IsRangeSize self.now.range_blocks }
    {
        self.range_blocks
    }

    /// Whether there is no block.
    pub fn is_empty(&self) -> bool
        ensures { result ≡ (len self.now.blocks == 0) }
    {
        self.count == 0
    }

    /// Adds a block, which may be there already.
    pub fn mark(&mut self, block: BlockNumber)
        requires { block.0 < most_ranges * self.old.range_blocks }
        ensures { self.new ≡ dead_marked (block.0 ∷ []) self.old }
    {
        let marks = &mut self.ranges[(block.0 / self.range_blocks) as usize];
        if !marks.contains(block) {
            marks.insert(block);
            self.count += 1;
        }
    }

    /// Takes the lowest block, if there is one.
    pub fn take(&mut self) -> Option<BlockNumber>
        ensures lowest { option_map (λ b. b.0) result
            ≡ first_of (lowest_batch self.old.range_blocks self.old.blocks) }
        ensures left { IfSome result (λ b. self.new ≡ dead_taken (b.0 ∷ []) self.old) }
        ensures none { IfNone result (self.old.blocks ≡ sets.empty × self.new ≡ self.old) }
    {
        if self.count == 0 {
            return None;
        }
        let (batch, _) = self.take_counted(1);
        batch.as_slice().first().copied()
    }

    /// Takes the 64 lowest blocks of the range of the lowest, or all of that range if they are
    /// fewer.
    pub fn take_batch(&mut self) -> Batch
        ensures batch { result ≡ lowest_batch self.old.range_blocks self.old.blocks }
        ensures left { self.new
            ≡ dead_taken (lowest_batch self.old.range_blocks self.old.blocks) self.old }
    {
        self.take_counted(64).0
    }

    /// Takes the lowest blocks of the range of the lowest, at most this many and 64. It tells how
    /// many words it looked at: at most 8 for each word that gives a block, and 32 for each range.
    pub fn take_counted(&mut self, most: usize) -> (Batch, Looks)
        ensures batch { result.0 ≡ lowest_of self.old.range_blocks most self.old.blocks }
        ensures left { self.new
            ≡ dead_taken (lowest_of self.old.range_blocks most self.old.blocks) self.old }
        ensures looked { result.1.looked ≤ 32 * most_ranges + 8 * result.1.giving }
        ensures giving { result.1.giving ≤ length result.0 }
    {
        let (batch, looks) = take_first(&mut self.ranges, most);
        self.count -= batch.len();
        (batch, looks)
    }
}

/// Takes the lowest blocks of the first range that has one, at most this many and 64, and tells how
/// many words it looked at.
fn take_first(ranges: &mut [Marks], most: usize) -> (Batch, Looks)
    requires numbered { (size : ℕ) × AreNumbered size 0 ranges.old }
    requires few { length ranges.old ≤ most_ranges }
    ensures batch { result.0 ≡ lowest_dead most ranges.old }
    ensures left { all_of ranges.new
        ≡ without_numbers (lowest_dead most ranges.old) (all_of ranges.old) }
    ensures numbered { (size : ℕ) → AreNumbered size 0 ranges.old → AreNumbered size 0 ranges.new }
    ensures length { length ranges.new ≡ length ranges.old }
    ensures looked { result.1.looked ≤ 32 * most_ranges + 8 * result.1.giving }
    ensures giving { result.1.giving ≤ length result.0 }
{
    let mut looked = 0;
    for i in 0..ranges.len() {
        let (batch, looks) = ranges[i].take_counted(most);
        looked += looks.looked;
        if !batch.is_empty() {
            let giving = looks.giving;
            return (batch, Looks { looked, giving });
        }
    }
    (Batch::new(), Looks { looked, giving: 0 })
}
