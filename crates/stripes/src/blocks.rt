//! The blocks of files.

ghost use Rattle.std.specs.Prelude.{◌≡◌, ◌+◌, ◌%◌, ◌<◌, ◌≤◌, ◌++◌, [], length, false, is_some};
ghost use Rattle.std.specs.Prelude.{IsTrue, OnOk, OnErr};
ghost use Rattle.std.specs.FinMap.{empty, get, insert, remove};
ghost use Rattle.std.specs.Option.{option_map};
ghost use Rattle.std.specs.List.{list_all};
ghost use Rattle.std.specs.Vec.{vec_len, vec_capacity};
ghost use Rattle.nfs_model.specs.Home.{span_bytes};
ghost use Rattle.nfs_model.specs.Serial.Write.{blocks_met};
ghost use Rattle.nfs_model.specs.volume.Maps.{map_values};
ghost use Rattle.nfs_model.specs.volume.Stripes.{zero_block, file_mapped, byte_written};
ghost use Rattle.stripes.specs.Spans.{
  blocks_read,
  block_renumbered,
  numbers_past,
  cut_blocks,
  IsLong,
  IsFirstPast,
};

use crate::block::Block;
use crate::freed_blocks::{FreedBlocks, GiveBack};
use crate::span::{Span, put_zeros};
use crate::spans::{
    SpanMap, give_back, insert_in, number_block, overwrite_in, take_from, take_in, write_in,
    zero_tail,
};
use nfs_values::{BLOCK_BYTES, BlockNumber, SPAN_BLOCKS, SPAN_BYTES};
use std::alloc::{AllocError, Global};
use std::collections::BTreeMap;
use std::marker::Model;

/// The blocks of files, by fileids and their numbers in the files.
#[derive(Drop)]
pub struct Blocks {
    alloc: Global,
    spans: SpanMap,
    /// Spans that are no file's any more, whose memory is still to be given back.
    gone: Vec<Span>,
}

impl Model for Blocks {
    ghost use Rattle.std.specs.FinMap.{FinMap};
    ghost use Rattle.std.specs.FinMap as maps;
    ghost use Rattle.std.specs.Coded.{coded×, coded_ℕ};
    ghost use Rattle.nfs_model.specs.volume.Stripes.{file_block_cmp};
    ghost use Rattle.nfs_model.specs.volume.Stripes as values;
    ghost use Rattle.nfs_model.specs.volume.Codes.{coded_block};
    ghost use Rattle.stripes.specs.Spans.{blocks_of, IsSpans};

    ghost Value = { FinMap file_block_cmp values.Block };

    ghost coded = { maps.code (coded× coded_ℕ coded_ℕ) coded_block };

    ghost view = { λ b. blocks_of b.spans.entries };

    ghost invariant = { λ b. IsSpans b.spans.entries };
}

impl Blocks {
    /// No block. It takes no memory.
    pub fn new(alloc: Global) -> Blocks
        ensures { result ≡ empty }
    {
        Blocks {
            alloc,
            spans: BTreeMap::new(alloc),
            gone: Vec::new(alloc),
        }
    }

    /// Whether a block of a file is filled.
    pub fn is_filled(&self, fileid: u64, block: u64) -> bool
        ensures { result ≡ is_some (get self.now (fileid, block)) }
    {
        match self.spans.get(&(fileid, block / SPAN_BLOCKS)) {
            Some(span) => span.has(block),
            None => false,
        }
    }

    /// Appends n bytes of a file from an offset on, which lie in one span.
    pub fn read(&self, fileid: u64, offset: u64, n: usize, into: &mut Vec<u8>)
        requires span { offset % span_bytes + n ≤ span_bytes }
        requires room { vec_len into.old + n ≤ vec_capacity into.old }
        ensures bytes { into.new.items ≡ into.old.items ++ blocks_read self.now fileid offset n }
        ensures capacity { vec_capacity into.old ≤ vec_capacity into.new }
    {
        match self.spans.get(&(fileid, offset / SPAN_BYTES)) {
            Some(span) => span.read(offset, n, into),
            None => put_zeros(into, n),
        }
    }

    /// Writes bytes at an offset of a file, which lie in one span, where each of their blocks is
    /// filled, and tells whether it did.
    pub fn overwrite(&mut self, fileid: u64, offset: u64, written: &[u8]) -> bool
        requires some { 0 < length written.now }
        requires span { offset % span_bytes + length written.now ≤ span_bytes }
        ensures answer { result ≡ list_all (λ b. is_some (get self.old (fileid, b)))
            (blocks_met offset (length written.now)) }
        ensures written { IsTrue result → self.new
            ≡ map_values (file_mapped (byte_written offset written.now) fileid) self.old }
        ensures kept { result ≡ false → self.new ≡ self.old }
        ensures long { IsLong self.new }
    {
        overwrite_in(&mut self.spans, fileid, offset, written)
    }

    /// Fills a block with zeros.
    pub fn insert(&mut self, fileid: u64, block: u64, number: BlockNumber) -> Result<(), AllocError>
        ensures ok { OnOk result
            (self.new ≡ insert self.old (fileid, block) (zero_block number.0)) }
        ensures err { OnErr result (self.new ≡ self.old) }
        ensures long { IsLong self.new }
    {
        let zeros = Block::zero(self.alloc, number)?;
        insert_in(&mut self.spans, self.alloc, fileid, block, zeros)
    }

    /// Writes bytes at an offset of a file, which lie in one span, into the blocks that are there.
    pub fn write(&mut self, fileid: u64, offset: u64, written: &[u8])
        requires some { 0 < length written.now }
        requires span { offset % span_bytes + length written.now ≤ span_bytes }
        ensures written { self.new
            ≡ map_values (file_mapped (byte_written offset written.now) fileid) self.old }
        ensures long { IsLong self.new }
    {
        write_in(&mut self.spans, fileid, offset, written);
    }

    /// Takes a block of a file, if it is filled, and tells its number.
    pub fn take(&mut self, fileid: u64, block: u64) -> Option<BlockNumber>
        ensures there { option_map (λ n. n.0) result
            ≡ option_map (λ b. b.number) (get self.old (fileid, block)) }
        ensures taken { self.new ≡ remove self.old (fileid, block) }
        ensures long { IsLong self.new }
    {
        if !self.is_filled(fileid, block) {
            return None;
        }
        let place = (block % SPAN_BLOCKS) as usize;
        let Some(taken) = take_in(&mut self.spans, fileid, block / SPAN_BLOCKS, place) else {
            return None;
        };
        Some(taken.number())
    }

    /// Puts a block of a file under another number, if it is filled.
    pub fn set_number(&mut self, fileid: u64, block: u64, number: BlockNumber)
        ensures numbered { self.new ≡ block_renumbered fileid block number.0 self.old }
        ensures long { IsLong self.new }
    {
        number_block(&mut self.spans, fileid, block, number);
    }

    /// Takes a file's blocks that lie wholly past a size in the span of the first of them, and
    /// tells whether there was one, and their numbers. Where there is none it zeroes the rest of
    /// the block in which the size lies. The memory of a whole span may be given back later.
    pub fn cut(&mut self, fileid: u64, size: u64, memory: GiveBack, freed: &mut FreedBlocks) -> bool
        ensures freed { IsTrue result → numbers_past fileid size self.old
            ≡ freed.new ++ numbers_past fileid size self.new }
        ensures some { IsTrue result → 0 < length freed.new }
        ensures rest { IsTrue result
            → cut_blocks fileid size self.new ≡ cut_blocks fileid size self.old }
        ensures none { result ≡ false → numbers_past fileid size self.old ≡ [] }
        ensures done { result ≡ false → self.new ≡ cut_blocks fileid size self.old }
        ensures long { IsLong self.new }
    {
        let first = first_past(size);
        if take_from(
            &mut self.spans,
            &mut self.gone,
            fileid,
            first,
            memory,
            freed,
        ) {
            return true;
        }
        zero_tail(&mut self.spans, fileid, size);
        false
    }

    /// Gives back the memory of this many blocks at least that cuts took, or of all that is left,
    /// and tells of how many.
    pub fn give_back(&mut self, blocks: usize) -> usize
        ensures same { self.new ≡ self.old }
        ensures long { IsLong self.new }
    {
        give_back(&mut self.gone, blocks)
    }
}

/// The number of a file's first block that lies wholly past a size.
fn first_past(size: u64) -> u64
    ensures { IsFirstPast size result }
{
    size.div_ceil(BLOCK_BYTES)
}
