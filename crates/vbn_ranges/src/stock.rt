//! The stock of a volume.

ghost use Rattle.std.specs.Prelude.{
  ◌≡◌,
  ◌∷◌,
  [],
  true,
  false,
  ◌==◌,
  ◌↔◌,
  IsNone,
  IfNone,
  IfSome,
  OnOk,
  OnErr,
};
ghost use Rattle.std.specs.List.{AllByRecursion};
ghost use Rattle.std.specs.FinSet as sets;
ghost use Rattle.std.specs.FinSet.{contains, len};
ghost use Rattle.nfs_model.specs.volume.Ranges.{with_numbers, without_numbers};
ghost use Rattle.vbn_ranges.specs.Batch.{numbers};

use crate::batch::Batch;
use nfs_values::BlockNumber;
use std::alloc::{AllocError, Global};
use std::marker::Model;

/// The block numbers that a volume has ready for files.
pub struct Stock {
    blocks: Vec<BlockNumber>,
}

// By hand, so that crates above have no proof of the drop of each of its parts.
impl Drop for Stock {
    fn drop(self) {
        let Stock { blocks: _ } = self;
    }
}

impl Model for Stock {
    ghost use Rattle.std.specs.Ordering.{nat_cmp};
    ghost use Rattle.std.specs.Coded.{coded_ℕ};
    ghost use Rattle.std.specs.FinSet as sets;
    ghost use Rattle.std.specs.FinSet.{FinSet, from_list};
    ghost use Rattle.vbn_ranges.specs.Batch.{numbers};
    ghost use Rattle.vbn_ranges.specs.Stock.{AreApart};

    ghost Value = { FinSet nat_cmp };

    ghost coded = { sets.code coded_ℕ };

    ghost view = { λ s. from_list (numbers s.blocks.items) };

    ghost invariant = { λ s. AreApart (numbers s.blocks.items) };
}

impl Stock {
    /// No block. It takes no memory.
    pub fn new(alloc: Global) -> Stock
        ensures { result ≡ sets.empty }
    {
        Stock {
            blocks: Vec::new(alloc),
        }
    }

    /// The number of blocks.
    pub fn len(&self) -> usize
        ensures { result ≡ len self.now }
    {
        self.blocks.len()
    }

    /// Whether there is no block.
    pub fn is_empty(&self) -> bool
        ensures { result ≡ (len self.now == 0) }
    {
        self.blocks.len() == 0
    }

    /// Adds the blocks of a batch, none of which is there. Where there is no memory for them
    /// nothing changes.
    pub fn put(&mut self, batch: &Batch) -> Result<(), AllocError>
        requires { AllByRecursion (λ b. contains self.old b ≡ false) batch.now }
        ensures ok { OnOk result (self.new ≡ with_numbers batch.now self.old) }
        ensures err { OnErr result (self.new ≡ self.old) }
    {
        self.blocks.extend_from_slice(batch.as_slice())
    }

    /// Takes some block, if there is one. It takes no memory.
    pub fn take(&mut self) -> Option<BlockNumber>
        ensures empty { IsNone result ↔ (self.old ≡ sets.empty) }
        ensures there { IfSome result (λ b. contains self.old b.0 ≡ true) }
        ensures left { IfSome result (λ b. self.new ≡ without_numbers (b.0 ∷ []) self.old) }
        ensures none { IfNone result (self.new ≡ self.old) }
    {
        self.blocks.pop()
    }
}
