//! Maps of chunks.

ghost use Rattle.std.specs.Prelude.{
  ◌≡◌,
  ◌/◌,
  ℕ,
  None,
  Some,
  IsOk,
  IsSome,
  IsTrue,
  OnOk,
  OnErr,
};
ghost use Rattle.std.specs.Option.{option_map};
ghost use Rattle.chunk_maps.specs.Chunks.{page_chunks, page_size, SameAt, Sets};
ghost use Rattle.chunk_maps.specs.Numbers.{page_of};

use crate::chunk::{CHUNK_SIZE, Chunk};
use crate::numbered::NumberedPages;
use crate::page::{PAGE_CHUNKS, PAGE_SIZE, Page, item_on, put_on};
use crate::reading::{GROUP, chunks_on, sum_of};
use std::alloc::{AllocError, Global};

/// A map from fileids to items, in pages of 256 chunks, so that a search reads few keys.
#[derive(Drop)]
pub struct ChunkMap<C> {
    alloc: Global,
    /// By the quotient of their fileids and 8,192.
    pages: NumberedPages<C>,
    /// The number of the chunk that is kept though it may be empty.
    kept: u64,
}

impl<C: Chunk> ChunkMap<C> {
    ghost use Rattle.chunk_maps.specs.Maps.{value_by};

    /// No item. It takes no memory.
    pub fn new(alloc: Global) -> ChunkMap<C>
        ensures { (fileid : ℕ) → value_by C.values result fileid ≡ None }
    {
        ChunkMap {
            alloc,
            pages: NumberedPages::new(alloc),
            kept: 0,
        }
    }

    /// The item of a fileid.
    pub fn get(&self, fileid: u64) -> Option<C::Item>
        ensures { option_map C.value result ≡ value_by C.values self.now fileid }
    {
        match self.pages.get(fileid / PAGE_SIZE) {
            Some(page) => item_on(page, fileid),
            None => None,
        }
    }

    /// Reads the items of fileids, all pages before the chunks and all chunks before the items, so
    /// that these reads wait for memory at the same time. Nothing is promised of the result.
    pub fn read_ahead<F: Fn(C::Item) -> u64>(&self, fileids: &[u64; GROUP], of: F) -> u64
        requires { F.IsAlwaysCallable of }
    {
        let pages = self.pages_of(fileids);
        let chunks = chunks_on(&pages, fileids);
        sum_of(&chunks, fileids, of)
    }

    /// The pages of fileids.
    fn pages_of(&self, fileids: &[u64; GROUP]) -> [Option<&Page<C>>; GROUP] {
        let mut pages = [None; GROUP];
        for at in 0..GROUP {
            pages[at] = self.pages.get(fileids[at] / PAGE_SIZE);
        }
        pages
    }

    /// Puts an item under a fileid. Memory is needed only where its chunk isn't there.
    pub fn put(&mut self, fileid: u64, item: C::Item) -> Result<(), AllocError>
        ensures ok { OnOk result (Sets fileid (Some (C.value item))
            (value_by C.values self.old) (value_by C.values self.new)) }
        ensures err { OnErr result
            (SameAt (value_by C.values self.old) (value_by C.values self.new)) }
        ensures succeeds { IsSome (value_by C.values self.old fileid) → IsOk result }
    {
        let alloc = self.alloc;
        match self.pages.place(fileid / PAGE_SIZE) {
            Ok(place) => self.pages.put(place, alloc, fileid, item),
            Err(_) => self.add_page(fileid, item),
        }
    }

    /// Adds a page with one item.
    fn add_page(&mut self, fileid: u64, item: C::Item) -> Result<(), AllocError>
        requires { page_of self.old.pages (fileid / page_size) ≡ None }
        ensures ok { OnOk result (Sets fileid (Some (C.value item))
            (value_by C.values self.old) (value_by C.values self.new)) }
        ensures err { OnErr result
            (SameAt (value_by C.values self.old) (value_by C.values self.new)) }
    {
        let mut page: Page<C> = Vec::new(self.alloc);
        put_on(&mut page, self.alloc, fileid, item)?;
        self.pages.insert(fileid / PAGE_SIZE, page)?;
        Ok(())
    }

    /// Changes the item of a fileid, if it is there, and tells the old one. It takes no memory.
    pub fn change<F: FnOnce(C::Item) -> C::Item>(
        &mut self,
        fileid: u64,
        change: F,
    ) -> Option<C::Item>
        requires { F.IsAlwaysCallable change }
        ensures old { option_map C.value result ≡ value_by C.values self.old fileid }
        ensures changed { (g : C.Kept → C.Kept)
            → ((x y : C.Item) → F.post change x y → C.value y ≡ g (C.value x))
            → Sets fileid (option_map g (value_by C.values self.old fileid))
            (value_by C.values self.old) (value_by C.values self.new) }
    {
        match self.pages.place(fileid / PAGE_SIZE) {
            Ok(place) => self.pages.change(place, fileid, change),
            Err(_) => None,
        }
    }

    /// Removes an item, if it is there, and tells it. A chunk whose last item goes is kept, and the
    /// one that was kept so far is freed. It takes no memory.
    pub fn remove(&mut self, fileid: u64) -> Option<C::Item>
        ensures item { option_map C.value result ≡ value_by C.values self.old fileid }
        ensures gone { Sets fileid None
            (value_by C.values self.old) (value_by C.values self.new) }
    {
        let (item, is_empty) = self.take(fileid);
        if is_empty {
            self.keep(fileid / CHUNK_SIZE);
        }
        item
    }

    /// Takes an item, if it is there, and tells whether its chunk is empty then.
    fn take(&mut self, fileid: u64) -> (Option<C::Item>, bool)
        ensures item { option_map C.value result.0 ≡ value_by C.values self.old fileid }
        ensures gone { Sets fileid None
            (value_by C.values self.old) (value_by C.values self.new) }
    {
        match self.pages.place(fileid / PAGE_SIZE) {
            Ok(place) => self.pages.take(place, fileid),
            Err(_) => (None, false),
        }
    }

    /// Keeps the chunk of a number in the place of another, which is freed if no item is in it.
    fn keep(&mut self, number: u64)
        ensures { SameAt (value_by C.values self.old) (value_by C.values self.new) }
    {
        let former = self.kept;
        self.kept = number;
        if former != number {
            self.free(former);
        }
    }

    /// Frees the chunk of a number if no item is in it, and its page if that was its last chunk.
    fn free(&mut self, number: u64)
        ensures { SameAt (value_by C.values self.old) (value_by C.values self.new) }
    {
        if self.free_chunk(number) {
            self.pages.remove(number / PAGE_CHUNKS);
        }
    }

    /// Frees the chunk of a number if no item is in it, and tells whether its page is there, and
    /// has no chunk then.
    fn free_chunk(&mut self, number: u64) -> bool
        ensures same { SameAt (value_by C.values self.old) (value_by C.values self.new) }
        ensures none { IsTrue result → (fileid : ℕ) → fileid / page_size ≡ number / page_chunks
            → value_by C.values self.new fileid ≡ None }
    {
        match self.pages.place(number / PAGE_CHUNKS) {
            Ok(place) => self.pages.free(place, number),
            Err(_) => false,
        }
    }
}
