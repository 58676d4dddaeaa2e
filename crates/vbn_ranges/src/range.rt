//! Ranges of a volume.

ghost use Rattle.std.specs.Prelude.{
  ◌≡◌,
  ◌+◌,
  ◌*◌,
  ◌/◌,
  ◌<◌,
  ◌≤◌,
  ◌↔◌,
  length,
  IsOk,
  IfOk,
  IfErr,
  OnOk,
  OnErr,
  IsTrue,
};
ghost use Rattle.std.specs.List.{AllByRecursion};
ghost use Rattle.std.specs.FinSet.{len};
ghost use Rattle.nfs_model.specs.Parts.{most_ranges, IsAscending};
ghost use Rattle.vbn_ranges.specs.Batch.{numbers};
ghost use Rattle.nfs_model.specs.volume.Ranges.{
  unused_range,
  free_numbers,
  lowest,
  taken,
  MayBeGiven,
  given,
  put_in_use,
  IsRange,
  IsRangeSize,
};
ghost use Rattle.vbn_ranges.specs.declared.fault.RangeFault.TheVariants as faults;

use crate::batch::Batch;
use crate::fault::RangeFault;
use crate::looks::Looks;
use crate::marks::Marks;
use nfs_values::BlockNumber;
use std::alloc::{AllocError, Global};
use std::marker::Model;

/// Block numbers of a volume that follow one another, and which of them are free.
#[derive(Drop)]
pub struct Range {
    free: Marks,
    is_used: bool,
}

impl Model for Range {
    ghost use Rattle.nfs_model.specs.volume.Ranges.{RangeValue, IsRange};
    ghost use Rattle.nfs_model.specs.volume.Codes.{coded_range};
    ghost use Rattle.vbn_ranges.specs.Marks.{range_value};

    ghost Value = { RangeValue };

    ghost coded = { coded_range };

    ghost view = { λ r. range_value r.is_used r.free };

    ghost invariant = { λ r. IsRange (range_value r.is_used r.free) };
}

impl Range {
    /// The range of a number below 16, of this many blocks, not in use.
    pub fn new(alloc: Global, range_blocks: u32, number: u32) -> Result<Range, AllocError>
        requires size { IsRangeSize range_blocks }
        requires number { number < most_ranges }
        ensures { IfOk result (λ range. range ≡ unused_range range_blocks number) }
    {
        Ok(Range {
            free: Marks::none(alloc, range_blocks, number)?,
            is_used: false,
        })
    }

    /// Its number among the ranges of the volume.
    pub fn number(&self) -> u32
        ensures value { result ≡ self.now.number }
        ensures below { result < most_ranges }
        ensures range { IsRange self.now }
    {
        self.free.range()
    }

    /// How many blocks it has.
    pub fn range_blocks(&self) -> u32
        ensures value { result ≡ self.now.range_blocks }
        ensures size { IsRangeSize self.now.range_blocks }
    {
        self.free.range_blocks()
    }

    /// Whether it is in use.
    pub fn is_used(&self) -> bool
        ensures { result ≡ self.now.is_used }
    {
        self.is_used
    }

    /// How many of its blocks are free.
    pub fn free_count(&self) -> usize
        ensures listed { result ≡ length (free_numbers self.now) }
        ensures counted { result ≡ len self.now.free }
    {
        self.free.len()
    }

    /// Comes into use, all its blocks free. A range that is in use stays as it is. It takes no
    /// memory.
    pub fn put_in_use(&mut self)
        ensures { self.new ≡ put_in_use self.old }
    {
        if !self.is_used {
            self.free.fill();
            self.is_used = true;
        }
    }

    /// Takes the lowest free blocks, as many as there are, at most n and 64. A range that isn't
    /// in use refuses.
    pub fn take(&mut self, n: usize) -> Result<Batch, RangeFault>
        ensures used { IsOk result ↔ IsTrue self.old.is_used }
        ensures batch { IfOk result (λ b. b ≡ lowest n self.old) }
        ensures ok { OnOk result (self.new ≡ taken (lowest n self.old) self.old) }
        ensures fault { IfErr result (λ f. f ≡ faults.NoSuchRange) }
        ensures err { OnErr result (self.new ≡ self.old) }
    {
        let (batch, _) = self.take_counted(n)?;
        Ok(batch)
    }

    /// As `take`, and how many words were looked at: at most 8 for each word that gives a block,
    /// and 32 more.
    pub fn take_counted(&mut self, n: usize) -> Result<(Batch, Looks), RangeFault>
        ensures used { IsOk result ↔ IsTrue self.old.is_used }
        ensures batch { IfOk result (λ r. r.0 ≡ lowest n self.old) }
        ensures looked { IfOk result (λ r. r.1.looked ≤ 32 + 8 * r.1.giving) }
        ensures giving { IfOk result (λ r. r.1.giving ≤ length r.0) }
        ensures ok { OnOk result (self.new ≡ taken (lowest n self.old) self.old) }
        ensures fault { IfErr result (λ f. f ≡ faults.NoSuchRange) }
        ensures err { OnErr result (self.new ≡ self.old) }
    {
        if !self.is_used {
            return Err(RangeFault::NoSuchRange);
        }
        Ok(self.free.take_counted(n))
    }

    /// Takes blocks back. It refuses where one isn't of the range or is free, and where the
    /// range isn't in use.
    pub fn give(&mut self, batch: &Batch) -> Result<(), RangeFault>
        ensures held { IsOk result ↔ MayBeGiven batch.now self.old }
        ensures ok { OnOk result (self.new ≡ given batch.now self.old) }
        ensures fault { IfErr result (λ f. f ≡ faults.NotHeld) }
        ensures err { OnErr result (self.new ≡ self.old) }
    {
        if !self.is_used {
            return Err(RangeFault::NotHeld);
        }
        let blocks = batch.as_slice();
        if !are_of(blocks, self.free.range_blocks(), self.free.range()) {
            return Err(RangeFault::NotHeld);
        }
        if self.free.has_any(blocks) {
            return Err(RangeFault::NotHeld);
        }
        self.free.insert_all(blocks);
        Ok(())
    }
}

/// Whether ascending blocks are all of a range, where a range has this many blocks: the first and
/// the last are looked at.
fn are_of(blocks: &[BlockNumber], range_blocks: u32, range: u32) -> bool
    requires size { 0 < range_blocks }
    requires ascending { IsAscending (numbers blocks.now) }
    ensures { IsTrue result
        ↔ AllByRecursion (λ b. b / range_blocks ≡ range) (numbers blocks.now) }
{
    let Some(first) = blocks.first() else {
        return true;
    };
    let Some(last) = blocks.last() else {
        return true;
    };
    first.0 / range_blocks == range && last.0 / range_blocks == range
}
