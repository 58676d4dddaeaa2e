//! Marks on the block numbers of a range.

ghost use Rattle.std.specs.Prelude.{◌≡◌, ◌<◌, ◌≤◌, ◌+◌, ◌*◌, ◌/◌, ◌∷◌, [], length, IfOk};
ghost use Rattle.std.specs.List.{AllByRecursion, list_any};
ghost use Rattle.std.specs.FinSet.{contains, len};
ghost use Rattle.nfs_model.specs.Parts.{most_ranges};
ghost use Rattle.nfs_model.specs.Moves.{in_range};
ghost use Rattle.nfs_model.specs.volume.Ranges.{IsRangeSize};
ghost use Rattle.vbn_ranges.specs.Batch.{numbers};
ghost use Rattle.vbn_ranges.specs.Marks.{
  no_marks,
  all_marks,
  lowest_marked,
  marked,
  unmarked,
  IsMarks,
};

use crate::batch::Batch;
use crate::looks::Looks;
use crate::store::Store;
use nfs_values::BlockNumber;
use std::alloc::{AllocError, Global};
use std::marker::Model;

/// Which block numbers of a range are marked.
#[derive(Drop)]
pub struct Marks {
    /// How many blocks the range has.
    range_blocks: u32,
    range: u32,
    store: Store,
}

impl Model for Marks {
    ghost use Rattle.std.specs.Prelude.{◌≡◌, ◌*◌, ◌<◌, length};
    ghost use Rattle.nfs_model.specs.Parts.{most_ranges};
    ghost use Rattle.nfs_model.specs.volume.Ranges.{IsRangeSize};
    ghost use Rattle.vbn_ranges.specs.Marks.{MarksValue, coded_marks, marks_of};
    ghost use Rattle.vbn_ranges.specs.Store.{words_in, IsStore};

    ghost Value = { MarksValue };

    ghost coded = { coded_marks };

    ghost view = { λ m. marks_of m.range_blocks m.range (words_in m.store) };

    ghost invariant = { λ m. IsRangeSize m.range_blocks × (m.range < most_ranges
        × (IsStore m.store × (64 * length (words_in m.store) ≡ m.range_blocks))) };
}

impl Marks {
    /// No number of a range of this many blocks is marked.
    pub fn none(alloc: Global, range_blocks: u32, range: u32) -> Result<Marks, AllocError>
        requires size { IsRangeSize range_blocks }
        requires range { range < most_ranges }
        ensures { IfOk result (λ marks. marks ≡ no_marks range_blocks range) }
    {
        let store = Store::none(alloc, (range_blocks / 64) as usize)?;
        Ok(Marks {
            range_blocks,
            range,
            store,
        })
    }

    /// Marks each number. It takes no memory.
    pub fn fill(&mut self)
        ensures { self.new ≡ all_marks self.old.range_blocks self.old.range }
    {
        self.store.fill();
    }

    /// The number of the range.
    pub fn range(&self) -> u32
        ensures value { result ≡ self.now.range }
        ensures below { result < most_ranges }
        ensures marks { IsMarks self.now }
    {
        self.range
    }

    /// How many blocks the range has.
    pub fn range_blocks(&self) -> u32
        ensures value { result ≡ self.now.range_blocks }
        ensures size { IsRangeSize self.now.range_blocks }
    {
        self.range_blocks
    }

    /// How many numbers are marked.
    pub fn len(&self) -> usize
        ensures listed { result
            ≡ length (in_range self.now.range_blocks self.now.range self.now.set) }
        ensures counted { result ≡ len self.now.set }
    {
        self.store.count()
    }

    /// Whether a block of the range is marked.
    pub fn contains(&self, block: BlockNumber) -> bool
        requires { block.0 / self.now.range_blocks ≡ self.now.range }
        ensures { result ≡ contains self.now.set block.0 }
    {
        self.store.has((block.0 % self.range_blocks) as usize)
    }

    /// Marks a block of the range.
    pub fn insert(&mut self, block: BlockNumber)
        requires { block.0 / self.old.range_blocks ≡ self.old.range }
        ensures { self.new ≡ marked (block.0 ∷ []) self.old }
    {
        self.store.insert((block.0 % self.range_blocks) as usize);
    }

    /// Whether some block of these, which are of the range, is marked.
    pub fn has_any(&self, blocks: &[BlockNumber]) -> bool
        requires { AllByRecursion (λ b. b / self.now.range_blocks ≡ self.now.range)
            (numbers blocks.now) }
        ensures { result ≡ list_any (contains self.now.set) (numbers blocks.now) }
    {
        for block in blocks {
            if self.contains(*block) {
                return true;
            }
        }
        false
    }

    /// Marks blocks of the range.
    pub fn insert_all(&mut self, blocks: &[BlockNumber])
        requires { AllByRecursion (λ b. b / self.old.range_blocks ≡ self.old.range)
            (numbers blocks.now) }
        ensures { self.new ≡ marked (numbers blocks.now) self.old }
    {
        for block in blocks {
            self.insert(*block);
        }
    }

    /// Takes the lowest marked blocks, at most this many and 64. It tells how many words it looked
    /// at: at most 8 for each word that gives a block, and 32 more.
    pub fn take_counted(&mut self, most: usize) -> (Batch, Looks)
        ensures batch { result.0 ≡ lowest_marked most self.old }
        ensures left { self.new ≡ unmarked (lowest_marked most self.old) self.old }
        ensures looked { result.1.looked ≤ 32 + 8 * result.1.giving }
        ensures giving { result.1.giving ≤ length result.0 }
    {
        self.store
            .take_counted(self.range_blocks * self.range, most)
    }
}
