//! A span of a file: 64 blocks that follow one another, some of them filled.

ghost use Rattle.std.specs.Prelude.{◌≡◌, ◌+◌, ◌*◌, ◌/◌, ◌%◌, ◌≤◌, ◌<◌, ◌^◌, ◌++◌, length, map};
ghost use Rattle.std.specs.Prelude.{false, [], ◌-◌, IsTrue, is_some, replicate, None, IfOk, IfSome};
ghost use Rattle.std.specs.Prelude.{IfNone};
ghost use Rattle.std.specs.List.{range_with_len, list_all};
ghost use Rattle.std.specs.Option.{option_map};
ghost use Rattle.std.specs.Vec.{vec_len, vec_capacity};
ghost use Rattle.nfs_model.specs.Server.{block_size};
ghost use Rattle.nfs_model.specs.Home.{span_bytes};
ghost use Rattle.nfs_model.specs.Serial.Write.{blocks_met};
ghost use Rattle.nfs_model.specs.volume.Stripes.{
  span_blocks,
  block_mapped,
  byte_of,
  byte_written,
  byte_cut,
};
ghost use Rattle.stripes.specs.Spans.{
  place_of,
  span_read,
  PutsBlock,
  WritesSpan,
  CutsSpan,
  NumbersSpan,
  renumbered,
  TakesBlock,
  IsFirst,
  IsTakenFrom,
  HasNone,
  HasBlock,
  numbers_from,
  with_number,
};

use crate::block::Block;
use crate::freed_blocks::FreedBlocks;
use nfs_values::{BLOCK_BYTES, BlockNumber, SPAN_BLOCKS};
use std::alloc::{AllocError, Global};
use std::array;
use std::marker::Model;

/// The blocks of a span, each at its number modulo 64.
#[derive(Drop)]
pub struct Span {
    places: Box<[Option<Block>; 64]>,
}

impl Model for Span {
    ghost use Rattle.std.specs.Prelude.{◌≡◌, length};
    ghost use Rattle.std.specs.Coded.{coded_list, coded_option};
    ghost use Rattle.nfs_model.specs.volume.Stripes.{span_blocks};
    ghost use Rattle.nfs_model.specs.volume.Codes.{coded_block};
    ghost use Rattle.stripes.specs.Spans.{Places};

    ghost Value = { Places };

    ghost coded = { coded_list (coded_option coded_block) };

    ghost view = { λ s. s.places.value };

    ghost invariant = { λ s. length s.places.value ≡ span_blocks };
}

/// The place of a block in its span.
fn place(block: u64) -> usize
    ensures place { result ≡ block % span_blocks }
    ensures within { result < 64 }
{
    (block % SPAN_BLOCKS) as usize
}

/// No block at any place.
fn no_blocks() -> [Option<Block>; 64]
    ensures { result ≡ replicate 64 None }
{
    array::from_fn(|_| None)
}

/// The first and the last block of n bytes from an offset on.
fn blocks_of(offset: u64, n: usize) -> (u64, u64)
    requires some { 0 < n }
    requires span { offset % span_bytes + n ≤ span_bytes }
    ensures { (result.0 ≡ offset / block_size) × (result.1 ≡ (offset + n - 1) / block_size) }
{
    let last = offset + (n as u64 - 1);
    (offset / BLOCK_BYTES, last / BLOCK_BYTES)
}

impl Span {
    /// A span with one block.
    pub fn new(alloc: Global, number: u64, block: Block) -> Result<Span, AllocError>
        ensures { IfOk result (PutsBlock number block []) }
    {
        let mut places = Box::new(alloc, no_blocks())?;
        places[place(number)] = Some(block);
        Ok(Span { places })
    }

    /// Puts a block at its place.
    pub fn put(&mut self, number: u64, block: Block)
        ensures { PutsBlock number block self.old self.new }
    {
        self.places[place(number)] = Some(block);
    }

    /// Appends n bytes of the file from an offset on, which lie in this span.
    pub fn read(&self, offset: u64, n: usize, into: &mut Vec<u8>)
        requires span { offset % span_bytes + n ≤ span_bytes }
        requires room { vec_len into.old + n ≤ vec_capacity into.old }
        ensures bytes { into.new.items ≡ into.old.items ++ span_read self.now offset n }
        ensures capacity { vec_capacity into.old ≤ vec_capacity into.new }
    {
        let mut done = 0;
        while done < n {
            let at = offset + done as u64;
            let start = (at % BLOCK_BYTES) as usize;
            let size = (BLOCK_BYTES as usize - start).min(n - done);
            append(&self.places[place(at / BLOCK_BYTES)], start, size, into);
            done += size;
        }
    }

    /// Whether a block is there.
    pub fn has(&self, block: u64) -> bool
        ensures { result ≡ is_some (place_of self.now block) }
    {
        self.places[place(block)].is_some()
    }

    /// Whether each block of n bytes from an offset on is filled.
    pub fn is_filled(&self, offset: u64, n: usize) -> bool
        requires some { 0 < n }
        requires span { offset % span_bytes + n ≤ span_bytes }
        ensures { result ≡ list_all (λ b. is_some (place_of self.now b)) (blocks_met offset n) }
    {
        let (first, last) = blocks_of(offset, n);
        for block in first..last + 1 {
            if self.places[place(block)].is_none() {
                return false;
            }
        }
        true
    }

    /// Writes bytes at an offset of the file into the blocks that are there.
    pub fn write(&mut self, offset: u64, written: &[u8])
        requires some { 0 < length written.now }
        requires span { offset % span_bytes + length written.now ≤ span_bytes }
        ensures { WritesSpan offset written.now self.old self.new }
    {
        let (first, last) = blocks_of(offset, written.len());
        for block in first..last + 1 {
            write_into(&mut self.places[place(block)], block, offset, written);
        }
    }

    /// Zeroes the rest of the block in which a size of the file lies, if it is there.
    pub fn cut(&mut self, size: u64)
        ensures { CutsSpan size self.old self.new }
    {
        cut_in(&mut self.places[place(size / BLOCK_BYTES)], size);
    }

    /// Puts a block under another number, if it is there.
    pub fn set_number(&mut self, block: u64, number: BlockNumber)
        ensures { NumbersSpan block number.0 self.old self.new }
    {
        number_in(&mut self.places[place(block)], number);
    }

    /// Takes the first block from a place on, if there is one, and tells its place.
    pub fn take_first(&mut self, from: usize) -> Option<(usize, Block)>
        requires { from ≤ span_blocks }
        ensures taken { IfSome result (λ r. TakesBlock r.0 r.1 self.old self.new) }
        ensures first { IfSome result (λ r. IsFirst from r.0 self.old) }
        ensures none { IfNone result (HasNone from self.old) }
        ensures kept { IfNone result (self.new ≡ self.old) }
    {
        let first = first_block(&self.places[..], from)?;
        let block = self.places[first].take()?;
        Some((first, block))
    }

    /// Takes all blocks from a place on, and tells whether there was one, and their numbers.
    pub fn take_rest(&mut self, from: usize, freed: &mut FreedBlocks) -> bool
        requires { from ≤ span_blocks }
        ensures some { IsTrue result → 0 < length freed.new }
        ensures told { IsTrue result → freed.new ≡ numbers_from from self.old }
        ensures taken { IsTrue result → IsTakenFrom from self.old self.new }
        ensures none { result ≡ false → HasNone from self.old }
        ensures kept { result ≡ false → self.new ≡ self.old }
    {
        if first_block(&self.places[..], from).is_none() {
            return false;
        }
        freed.clear();
        for i in from..64 {
            take_place(&mut self.places[i], freed);
        }
        true
    }

    /// Tells the numbers of its blocks.
    pub fn tell_numbers(&self, freed: &mut FreedBlocks)
        ensures { freed.new ≡ numbers_from 0 self.now }
    {
        freed.clear();
        for i in 0..64 {
            tell_place(&self.places[i], freed);
        }
    }

    /// How many blocks it has.
    pub fn count(&self) -> usize
        ensures { result ≡ length (numbers_from 0 self.now) }
    {
        let mut count = 0;
        for i in 0..64 {
            if self.places[i].is_some() {
                count += 1;
            }
        }
        count
    }

    /// Whether no block is there.
    pub fn is_empty(&self) -> bool
        ensures empty { IsTrue result → HasNone 0 self.now }
        ensures filled { result ≡ false → HasBlock self.now }
    {
        first_block(&self.places[..], 0).is_none()
    }
}

/// The first place from one on with a block.
fn first_block(places: &[Option<Block>], from: usize) -> Option<usize>
    requires long { length places.now ≡ span_blocks }
    requires from { from ≤ span_blocks }
    ensures first { IfSome result (λ i. IsFirst from i places.now) }
    ensures none { IfNone result (HasNone from places.now) }
{
    for i in from..64 {
        if places[i].is_some() {
            return Some(i);
        }
    }
    None
}

/// Tells the number of a place's block, if it is there, after others.
fn tell_place(place: &Option<Block>, freed: &mut FreedBlocks)
    requires { length freed.old < span_blocks }
    ensures { freed.new ≡ freed.old ++ with_number place.now [] }
{
    if let Some(block) = place {
        freed.push(block.number());
    }
}

/// Takes a place's block, if it is there, and tells its number after others.
fn take_place(place: &mut Option<Block>, freed: &mut FreedBlocks)
    requires { length freed.old < span_blocks }
    ensures told { freed.new ≡ freed.old ++ with_number place.old [] }
    ensures taken { place.new ≡ None }
{
    tell_place(place, freed);
    *place = None;
}

/// Appends bytes of a place's block; without a block they are zeros.
fn append(place: &Option<Block>, start: usize, size: usize, into: &mut Vec<u8>)
    requires within { start + size ≤ block_size }
    requires room { vec_len into.old + size ≤ vec_capacity into.old }
    ensures items { into.new.items
        ≡ into.old.items ++ map (byte_of place.now) (range_with_len start size) }
    ensures len { vec_len into.new ≡ vec_len into.old + size }
    ensures capacity { vec_capacity into.old ≤ vec_capacity into.new }
{
    match place {
        Some(block) => keep(into, &block.bytes()[start..start + size]),
        None => put_zeros(into, size),
    }
}

/// Appends bytes.
fn keep(into: &mut Vec<u8>, bytes: &[u8])
    requires { vec_len into.old + length bytes.now ≤ vec_capacity into.old }
    ensures items { into.new.items ≡ into.old.items ++ bytes.now }
    ensures len { vec_len into.new ≡ vec_len into.old + length bytes.now }
    ensures capacity { vec_capacity into.old ≤ vec_capacity into.new }
{
    into.extend_from_slice(bytes).unwrap();
}

/// Appends zeros.
pub fn put_zeros(into: &mut Vec<u8>, n: usize)
    requires { vec_len into.old + n ≤ vec_capacity into.old }
    ensures items { into.new.items ≡ into.old.items ++ replicate n 0 }
    ensures len { vec_len into.new ≡ vec_len into.old + n }
    ensures capacity { vec_capacity into.old ≤ vec_capacity into.new }
{
    into.resize(into.len() + n, 0).unwrap();
}

/// Writes into a place's block, if it is there.
fn write_into(place: &mut Option<Block>, number: u64, offset: u64, written: &[u8])
    requires fits { block_size * number < 2 ^ 64 }
    requires met { block_size * number < offset + length written.now }
    requires reached { offset < block_size * number + block_size }
    ensures { place.new
        ≡ option_map (block_mapped (byte_written offset written.now) number) place.old }
{
    if let Some(block) = place {
        block.write(number, offset, written);
    }
}

/// Zeroes a place's block from a size of the file on, which lies in it, if it is there.
fn cut_in(place: &mut Option<Block>, size: u64)
    ensures { place.new ≡ option_map (block_mapped (byte_cut size) (size / block_size)) place.old }
{
    if let Some(block) = place {
        block.cut(size);
    }
}

/// Puts a place's block under another number, if it is there.
fn number_in(place: &mut Option<Block>, number: BlockNumber)
    ensures { place.new ≡ option_map (renumbered number.0) place.old }
{
    if let Some(block) = place {
        block.set_number(number);
    }
}
