//! Spans of files, by fileids and numbers.

ghost use Rattle.std.specs.Prelude.{◌≡◌, ◌+◌, ◌*◌, ◌^◌, ◌/◌, ◌%◌, ◌<◌, ◌≤◌, ℕ, length, true, false};
ghost use Rattle.std.specs.Prelude.{Some, None, IsTrue, IsSome, IfSome, IfNone, OnOk, OnErr};
ghost use Rattle.nfs_model.specs.Home.{span_bytes};
ghost use Rattle.nfs_model.specs.volume.Stripes.{span_blocks};
ghost use Rattle.stripes.specs.Spans.{
  span_at,
  span_is_filled,
  AllFilled,
  SameSpans,
  ChangesSpan,
  Where,
  Puts,
  Takes,
  TakesFrom,
  HasNone,
  HasNoneFrom,
  FreesSpan,
  Stays,
  TakesFirst,
  TakesRest,
  TakesNone,
  WritesSpan,
  CutsSpan,
  NumbersSpan,
  numbers_from,
  Drops,
  There,
};

use crate::block::Block;
use crate::freed_blocks::{FreedBlocks, GiveBack};
use crate::span::Span;
use nfs_values::{BlockNumber, SPAN_BLOCKS, SPAN_BYTES};
use std::alloc::{AllocError, Global};
use std::collections::BTreeMap;

/// Spans by fileid and number, each with a block at least.
pub type SpanMap = BTreeMap<(u64, u64), Span>;

/// Writes bytes at an offset of a file where each of their blocks is filled, and tells whether it
/// did.
pub fn overwrite_in(spans: &mut SpanMap, fileid: u64, offset: u64, written: &[u8]) -> bool
    requires some { 0 < length written.now }
    requires span { offset % span_bytes + length written.now ≤ span_bytes }
    ensures answer { result ≡ span_is_filled offset (length written.now)
        (span_at spans.old.entries (fileid, offset / span_bytes)) }
    ensures written { IsTrue result → ChangesSpan (Where (WritesSpan offset written.now))
        (fileid, offset / span_bytes) spans.old.entries spans.new.entries }
    ensures kept { result ≡ false → ChangesSpan (Where Stays) (fileid, offset / span_bytes)
        spans.old.entries spans.new.entries }
{
    match spans.get_mut(&(fileid, offset / SPAN_BYTES)) {
        Some(span) => write_filled(span, offset, written),
        None => false,
    }
}

/// Writes bytes at an offset where each of their blocks is filled, and tells whether it did.
fn write_filled(span: &mut Span, offset: u64, written: &[u8]) -> bool
    requires some { 0 < length written.now }
    requires span { offset % span_bytes + length written.now ≤ span_bytes }
    ensures answer { result ≡ span_is_filled offset (length written.now) (Some span.old) }
    ensures written { IsTrue result → WritesSpan offset written.now span.old span.new }
    ensures kept { result ≡ false → span.new ≡ span.old }
{
    if !span.is_filled(offset, written.len()) {
        return false;
    }
    span.write(offset, written);
    true
}

/// Puts a block at its place.
pub fn insert_in(
    spans: &mut SpanMap,
    alloc: Global,
    fileid: u64,
    number: u64,
    block: Block,
) -> Result<(), AllocError>
    ensures ok { OnOk result (ChangesSpan (Puts number block) (fileid, number / span_blocks)
        spans.old.entries spans.new.entries) }
    ensures err { OnErr result (SameSpans spans.old.entries spans.new.entries) }
{
    match spans.get_mut(&(fileid, number / SPAN_BLOCKS)) {
        Some(span) => {
            span.put(number, block);
            Ok(())
        }
        None => add_span(spans, alloc, fileid, number, block),
    }
}

/// Adds a span with one block.
fn add_span(
    spans: &mut SpanMap,
    alloc: Global,
    fileid: u64,
    number: u64,
    block: Block,
) -> Result<(), AllocError>
    requires { span_at spans.old.entries (fileid, number / span_blocks) ≡ None }
    ensures ok { OnOk result (ChangesSpan (Puts number block) (fileid, number / span_blocks)
        spans.old.entries spans.new.entries) }
    ensures err { OnErr result (SameSpans spans.old.entries spans.new.entries) }
{
    let span = Span::new(alloc, number, block)?;
    spans.insert((fileid, number / SPAN_BLOCKS), span)?;
    Ok(())
}

/// Takes a file's blocks from a number on that lie in the span of the first of them, and tells
/// whether there was one, and their numbers. A span after that of the number may be kept among
/// those whose memory is given back later.
pub fn take_from(
    spans: &mut SpanMap,
    gone: &mut Vec<Span>,
    fileid: u64,
    first: u64,
    memory: GiveBack,
    freed: &mut FreedBlocks,
) -> bool
    requires { AllFilled spans.old.entries }
    ensures taken { IsTrue result
        → FreesSpan fileid first freed.new spans.old.entries spans.new.entries }
    ensures none { result ≡ false → HasNoneFrom fileid first spans.old.entries }
    ensures kept { result ≡ false → SameSpans spans.old.entries spans.new.entries }
{
    let (span, place) = (first / SPAN_BLOCKS, (first % SPAN_BLOCKS) as usize);
    if take_span(spans, fileid, span, place, freed) {
        return true;
    }
    take_after(spans, gone, fileid, span, memory, freed)
}

/// Takes a file's blocks in its first span after one, and tells whether there was one, and their
/// numbers.
fn take_after(
    spans: &mut SpanMap,
    gone: &mut Vec<Span>,
    fileid: u64,
    span: u64,
    memory: GiveBack,
    freed: &mut FreedBlocks,
) -> bool
    requires filled { AllFilled spans.old.entries }
    requires span { span < 2 ^ 63 }
    ensures taken { IsTrue result → FreesSpan fileid (span_blocks * (span + 1)) freed.new
        spans.old.entries spans.new.entries }
    ensures none { result ≡ false
        → HasNoneFrom fileid (span_blocks * (span + 1)) spans.old.entries }
    ensures kept { result ≡ false → SameSpans spans.old.entries spans.new.entries }
{
    match next_span(spans, fileid, span + 1) {
        Some(next) => {
            take_whole(spans, gone, fileid, next, memory, freed);
            true
        }
        None => false,
    }
}

/// Takes a span with its blocks, and tells their numbers.
fn take_whole(
    spans: &mut SpanMap,
    gone: &mut Vec<Span>,
    fileid: u64,
    number: u64,
    memory: GiveBack,
    freed: &mut FreedBlocks,
)
    requires filled { AllFilled spans.old.entries }
    requires there { IsSome (span_at spans.old.entries (fileid, number)) }
    ensures { ChangesSpan (TakesFrom 0 freed.new) (fileid, number)
        spans.old.entries spans.new.entries }
{
    match take_out(spans, fileid, number) {
        Some(span) => pass_on(span, gone, memory, freed),
        None => unreachable!(),
    }
}

/// Takes a span, if it is there.
fn take_out(spans: &mut SpanMap, fileid: u64, number: u64) -> Option<Span>
    ensures there { result ≡ span_at spans.old.entries (fileid, number) }
    ensures taken { ChangesSpan Drops (fileid, number) spans.old.entries spans.new.entries }
{
    spans.remove(&(fileid, number))
}

/// Tells the numbers of a span's blocks. Its memory is given back at once, or, where there is
/// memory to keep it in mind, later.
fn pass_on(span: Span, gone: &mut Vec<Span>, memory: GiveBack, freed: &mut FreedBlocks)
    ensures { freed.new ≡ numbers_from 0 span }
{
    span.tell_numbers(freed);
    match memory {
        GiveBack::AtOnce => {}
        GiveBack::Later => {
            let _kept = gone.push(span);
        }
    }
}

/// Gives back the memory of spans with this many blocks at least, or of all that are left, and
/// tells how many blocks they had.
pub fn give_back(gone: &mut Vec<Span>, blocks: usize) -> usize {
    let mut given = 0_usize;
    for _span in 0..blocks {
        if given >= blocks {
            return given;
        }
        match gone.pop() {
            Some(span) => given = given.saturating_add(span.count()),
            None => return given,
        }
    }
    given
}

/// Takes the blocks of a span from a place on, and the span with its last block. It tells whether
/// there was one, and their numbers.
fn take_span(
    spans: &mut SpanMap,
    fileid: u64,
    number: u64,
    from: usize,
    freed: &mut FreedBlocks,
) -> bool
    requires { from ≤ span_blocks }
    ensures taken { IsTrue result → ChangesSpan (TakesFrom from freed.new) (fileid, number)
        spans.old.entries spans.new.entries }
    ensures none { result ≡ false
        → TakesNone from (span_at spans.old.entries (fileid, number)) }
    ensures kept { result ≡ false → SameSpans spans.old.entries spans.new.entries }
{
    let Some(is_empty) = take_rest_of(spans, fileid, number, from, freed) else {
        return false;
    };
    if !is_empty {
        return true;
    }
    drop_span(spans, fileid, number);
    true
}

/// Takes the blocks of a span from a place on, if there is one, and tells their numbers, and
/// whether none is left.
fn take_rest_of(
    spans: &mut SpanMap,
    fileid: u64,
    number: u64,
    from: usize,
    freed: &mut FreedBlocks,
) -> Option<bool>
    requires { from ≤ span_blocks }
    ensures taken { IfSome result
        (λ is_empty. ChangesSpan (There (TakesRest from freed.new is_empty)) (fileid, number)
        spans.old.entries spans.new.entries) }
    ensures none { IfNone result (TakesNone from (span_at spans.old.entries (fileid, number))) }
    ensures kept { IfNone result (ChangesSpan (Where Stays) (fileid, number)
        spans.old.entries spans.new.entries) }
{
    match spans.get_mut(&(fileid, number)) {
        Some(span) => take_rest(span, from, freed),
        None => None,
    }
}

/// Takes the blocks of a span from a place on, if there is one, and tells their numbers, and
/// whether none is left.
fn take_rest(span: &mut Span, from: usize, freed: &mut FreedBlocks) -> Option<bool>
    requires { from ≤ span_blocks }
    ensures taken { IfSome result
        (λ is_empty. TakesRest from freed.new is_empty span.old span.new) }
    ensures none { IfNone result (HasNone from span.old) }
    ensures kept { IfNone result (span.new ≡ span.old) }
{
    if !span.take_rest(from, freed) {
        return None;
    }
    Some(span.is_empty())
}

/// Takes the first block of a span from a place on, and the span with its last block.
pub fn take_in(spans: &mut SpanMap, fileid: u64, number: u64, from: usize) -> Option<Block>
    requires { from ≤ span_blocks }
    ensures taken { IfSome result (λ block. ChangesSpan (Takes from block) (fileid, number)
        spans.old.entries spans.new.entries) }
    ensures none { IfNone result (TakesNone from (span_at spans.old.entries (fileid, number))) }
    ensures kept { IfNone result (SameSpans spans.old.entries spans.new.entries) }
{
    let (block, is_empty) = take_block(spans, fileid, number, from)?;
    if !is_empty {
        return Some(block);
    }
    drop_span(spans, fileid, number);
    Some(block)
}

/// Drops a span.
fn drop_span(spans: &mut SpanMap, fileid: u64, number: u64)
    ensures { ChangesSpan Drops (fileid, number) spans.old.entries spans.new.entries }
{
    spans.remove(&(fileid, number));
}

/// Takes the first block of a span from a place on, and tells whether it was the last.
fn take_block(spans: &mut SpanMap, fileid: u64, number: u64, from: usize) -> Option<(Block, bool)>
    requires { from ≤ span_blocks }
    ensures taken { IfSome result (λ r. ChangesSpan (There (TakesFirst from r.0 r.1))
        (fileid, number) spans.old.entries spans.new.entries) }
    ensures none { IfNone result (TakesNone from (span_at spans.old.entries (fileid, number))) }
    ensures kept { IfNone result (ChangesSpan (Where Stays) (fileid, number)
        spans.old.entries spans.new.entries) }
{
    match spans.get_mut(&(fileid, number)) {
        Some(span) => take_first(span, from),
        None => None,
    }
}

/// Takes the first block of a span from a place on, and tells whether it was the last.
fn take_first(span: &mut Span, from: usize) -> Option<(Block, bool)>
    requires { from ≤ span_blocks }
    ensures taken { IfSome result (λ r. TakesFirst from r.0 r.1 span.old span.new) }
    ensures none { IfNone result (HasNone from span.old) }
    ensures kept { IfNone result (span.new ≡ span.old) }
{
    let (_, block) = span.take_first(from)?;
    Some((block, span.is_empty()))
}

/// A file's first span from a number on.
fn next_span(spans: &SpanMap, fileid: u64, from: u64) -> Option<u64>
    ensures after { IfSome result (λ s. from ≤ s) }
    ensures there { IfSome result (λ s. IsSome (span_at spans.now.entries (fileid, s))) }
    ensures first { IfSome result (λ s. (t : ℕ) → from ≤ t → t < s
        → span_at spans.now.entries (fileid, t) ≡ None) }
    ensures none { IfNone result ((t : ℕ) → from ≤ t
        → span_at spans.now.entries (fileid, t) ≡ None) }
{
    match spans.range((fileid, from)..).next() {
        Some((key, _)) => { if key.0 == fileid { Some(key.1) } else { None } }
        None => None,
    }
}

/// Zeroes the rest of the block in which a size lies, if it is there.
pub fn zero_tail(spans: &mut SpanMap, fileid: u64, size: u64)
    ensures { ChangesSpan (Where (CutsSpan size)) (fileid, size / span_bytes)
        spans.old.entries spans.new.entries }
{
    if let Some(span) = spans.get_mut(&(fileid, size / SPAN_BYTES)) {
        span.cut(size);
    }
}

/// Puts a file's block under another number, if it is there.
pub fn number_block(spans: &mut SpanMap, fileid: u64, block: u64, number: BlockNumber)
    ensures { ChangesSpan (Where (NumbersSpan block number.0)) (fileid, block / span_blocks)
        spans.old.entries spans.new.entries }
{
    if let Some(span) = spans.get_mut(&(fileid, block / SPAN_BLOCKS)) {
        span.set_number(block, number);
    }
}

/// Writes bytes at an offset of a file into the blocks that are there.
pub fn write_in(spans: &mut SpanMap, fileid: u64, offset: u64, written: &[u8])
    requires some { 0 < length written.now }
    requires span { offset % span_bytes + length written.now ≤ span_bytes }
    ensures { ChangesSpan (Where (WritesSpan offset written.now)) (fileid, offset / span_bytes)
        spans.old.entries spans.new.entries }
{
    if let Some(span) = spans.get_mut(&(fileid, offset / SPAN_BYTES)) {
        span.write(offset, written);
    }
}
