//! Pages of chunks.

ghost use Rattle.std.specs.Prelude.{
  ◌≡◌,
  ◌≤◌,
  ℕ,
  None,
  Some,
  IsOk,
  IsSome,
  IsTrue,
  OnOk,
  OnErr,
  is_some,
  length,
};
ghost use Rattle.std.specs.List.{list_any};
ghost use Rattle.std.specs.Option.{option_copied, option_map};
ghost use Rattle.chunk_maps.specs.Chunks.{
  chunk_size,
  page_size,
  place_of,
  chunk_at,
  slot_by,
  value_on,
  SameAt,
  SetsAmong,
};

use crate::chunk::{CHUNK_SIZE, Chunk};
use std::alloc::{AllocError, Global};

/// How many chunks a page has.
pub const PAGE_CHUNKS: u64 = 256;

/// How many fileids a page has.
pub const PAGE_SIZE: u64 = 8_192;

/// Up to 256 chunks whose numbers follow one another, each at its number modulo 256. The places
/// behind the last one that was ever filled aren't there.
pub type Page<C> = Vec<Option<C>>;

/// The place of a fileid's chunk on its page.
pub fn place(fileid: u64) -> usize
    ensures { result ≡ place_of fileid }
{
    (fileid / CHUNK_SIZE % PAGE_CHUNKS) as usize
}

/// The chunk at a place, if there is one.
pub fn chunk_on<C>(page: &[Option<C>], place: usize) -> Option<&C>
    ensures { option_copied result ≡ chunk_at page.now place }
{
    match page.get(place) {
        Some(chunk) => chunk.as_ref(),
        None => None,
    }
}

/// The item of a fileid.
pub fn item_on<C: Chunk>(page: &[Option<C>], fileid: u64) -> Option<C::Item>
    ensures { option_map C.value result ≡ value_on C.values page.now fileid }
{
    match chunk_on(page, place(fileid)) {
        Some(chunk) => chunk.get(fileid),
        None => None,
    }
}

/// Puts an item under a fileid. Memory is needed only where its chunk isn't there.
pub fn put_on<C: Chunk>(
    page: &mut Page<C>,
    alloc: Global,
    fileid: u64,
    item: C::Item,
) -> Result<(), AllocError>
    ensures ok { OnOk result (SetsAmong page_size fileid (Some (C.value item))
        (value_on C.values page.old.items) (value_on C.values page.new.items)) }
    ensures err { OnErr result
        (SameAt (value_on C.values page.old.items) (value_on C.values page.new.items)) }
    ensures succeeds { IsSome (value_on C.values page.old.items fileid) → IsOk result }
{
    match page.get_mut(place(fileid)) {
        Some(chunk) => put_in(chunk, alloc, fileid, item),
        None => add_on(page, alloc, fileid, item),
    }
}

/// Puts an item into a chunk, or into a new one where there is none.
fn put_in<C: Chunk>(
    chunk: &mut Option<C>,
    alloc: Global,
    fileid: u64,
    item: C::Item,
) -> Result<(), AllocError>
    ensures ok { OnOk result (SetsAmong chunk_size fileid (Some (C.value item))
        (slot_by C.values chunk.old) (slot_by C.values chunk.new)) }
    ensures err { OnErr result (chunk.new ≡ chunk.old) }
    ensures succeeds { IsSome chunk.old → IsOk result }
{
    match chunk {
        Some(chunk) => {
            chunk.put(fileid, item);
            Ok(())
        }
        None => {
            *chunk = Some(C::new(alloc, fileid, item)?);
            Ok(())
        }
    }
}

/// Adds a chunk with one item to a page that ends before its place.
fn add_on<C: Chunk>(
    page: &mut Page<C>,
    alloc: Global,
    fileid: u64,
    item: C::Item,
) -> Result<(), AllocError>
    requires { length page.old.items ≤ place_of fileid }
    ensures ok { OnOk result (SetsAmong page_size fileid (Some (C.value item))
        (value_on C.values page.old.items) (value_on C.values page.new.items)) }
    ensures err { OnErr result
        (SameAt (value_on C.values page.old.items) (value_on C.values page.new.items)) }
{
    let chunk = C::new(alloc, fileid, item)?;
    fill(page, place(fileid))?;
    page.push(Some(chunk))?;
    Ok(())
}

/// Lengthens a page up to a place, by places without a chunk.
fn fill<C: Drop>(page: &mut Page<C>, place: usize) -> Result<(), AllocError>
    requires { length page.old.items ≤ place }
    ensures filled { OnOk result (length page.new.items ≡ place) }
    ensures same { (other : ℕ) → chunk_at page.new.items other ≡ chunk_at page.old.items other }
{
    while page.len() < place {
        page.push(None)?;
    }
    Ok(())
}

/// Changes the item of a fileid, if it is there, and tells the old one.
pub fn change_on<C: Chunk, F: FnOnce(C::Item) -> C::Item>(
    page: &mut Page<C>,
    fileid: u64,
    change: F,
) -> Option<C::Item>
    requires { F.IsAlwaysCallable change }
    ensures old { option_map C.value result ≡ value_on C.values page.old.items fileid }
    ensures changed { (g : C.Kept → C.Kept)
        → ((x y : C.Item) → F.post change x y → C.value y ≡ g (C.value x))
        → SetsAmong page_size fileid (option_map g (value_on C.values page.old.items fileid))
        (value_on C.values page.old.items) (value_on C.values page.new.items) }
{
    match page.get_mut(place(fileid)) {
        Some(chunk) => change_in(chunk, fileid, change),
        None => None,
    }
}

/// Changes the item of a fileid in a chunk, if both are there, and tells the old one.
fn change_in<C: Chunk, F: FnOnce(C::Item) -> C::Item>(
    chunk: &mut Option<C>,
    fileid: u64,
    change: F,
) -> Option<C::Item>
    requires { F.IsAlwaysCallable change }
    ensures old { option_map C.value result ≡ slot_by C.values chunk.old fileid }
    ensures changed { (g : C.Kept → C.Kept)
        → ((x y : C.Item) → F.post change x y → C.value y ≡ g (C.value x))
        → SetsAmong chunk_size fileid (option_map g (slot_by C.values chunk.old fileid))
        (slot_by C.values chunk.old) (slot_by C.values chunk.new) }
{
    match chunk {
        Some(chunk) => {
            let item = chunk.get(fileid)?;
            chunk.put(fileid, change(item));
            Some(item)
        }
        None => None,
    }
}

/// Takes the item of a fileid, if it is there, and tells whether its chunk is empty then.
pub fn take_on<C: Chunk>(page: &mut Page<C>, fileid: u64) -> (Option<C::Item>, bool)
    ensures item { option_map C.value result.0 ≡ value_on C.values page.old.items fileid }
    ensures gone { SetsAmong page_size fileid None
        (value_on C.values page.old.items) (value_on C.values page.new.items) }
{
    match page.get_mut(place(fileid)) {
        Some(chunk) => take_in(chunk, fileid),
        None => (None, false),
    }
}

/// Takes the item of a fileid from a chunk, if both are there, and tells whether the chunk is
/// empty then.
fn take_in<C: Chunk>(chunk: &mut Option<C>, fileid: u64) -> (Option<C::Item>, bool)
    ensures item { option_map C.value result.0 ≡ slot_by C.values chunk.old fileid }
    ensures gone { SetsAmong chunk_size fileid None
        (slot_by C.values chunk.old) (slot_by C.values chunk.new) }
{
    match chunk {
        Some(chunk) => {
            let item = chunk.take(fileid);
            (item, chunk.is_empty())
        }
        None => (None, false),
    }
}

/// Frees the chunk at a place if no item is in it, and tells whether the page has no chunk then.
pub fn free_on<C: Chunk>(page: &mut Page<C>, place: usize) -> bool
    ensures same { SameAt (value_on C.values page.old.items) (value_on C.values page.new.items) }
    ensures none { IsTrue result → (other : ℕ) → chunk_at page.new.items other ≡ None }
{
    free_at(page, place);
    !has_chunk(page)
}

/// Frees the chunk at a place if no item is in it.
fn free_at<C: Chunk>(page: &mut Page<C>, place: usize)
    ensures { SameAt (value_on C.values page.old.items) (value_on C.values page.new.items) }
{
    if let Some(chunk) = page.get_mut(place) {
        free_in(chunk);
    }
}

/// Frees a chunk if no item is in it.
fn free_in<C: Chunk>(chunk: &mut Option<C>)
    ensures { SameAt (slot_by C.values chunk.old) (slot_by C.values chunk.new) }
{
    if is_empty(chunk) {
        *chunk = None;
    }
}

/// Whether a chunk is there, and empty.
fn is_empty<C: Chunk>(chunk: &Option<C>) -> bool
    ensures { IsTrue result → (fileid : ℕ) → slot_by C.values chunk.now fileid ≡ None }
{
    match chunk {
        Some(chunk) => chunk.is_empty(),
        None => false,
    }
}

/// Whether a page has a chunk.
fn has_chunk<C>(page: &[Option<C>]) -> bool
    ensures { result ≡ list_any is_some page.now }
{
    page.iter().any(|chunk| chunk.is_some())
}
