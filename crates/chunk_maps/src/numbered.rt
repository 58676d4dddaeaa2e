//! Pages by their numbers.

ghost use Rattle.std.specs.Prelude.{
  ◌≡◌,
  ◌/◌,
  ◌==◌,
  ℕ,
  [],
  None,
  Some,
  IsOk,
  IsSome,
  IsTrue,
  IfErr,
  IfOk,
  OnOk,
  OnErr,
  if◌then◌else◌,
};
ghost use Rattle.std.specs.Option.{option_copied, option_map};
ghost use Rattle.chunk_maps.specs.Chunks.{page_chunks, page_size, SameAt, Sets};
ghost use Rattle.chunk_maps.specs.Numbers.{page_of, value_among, IsAt, IsGap};

use crate::chunk::Chunk;
use crate::page::{PAGE_CHUNKS, Page, change_on, free_on, put_on, take_on};
use std::alloc::{AllocError, Global};
use std::marker::Model;

/// Pages in the order of their numbers. Most numbers follow one another, so that the place of one
/// is guessed.
#[derive(Drop)]
pub struct NumberedPages<C> {
    list: Vec<(u64, Page<C>)>,
}

impl<C> Model for NumberedPages<C> {
    ghost use Rattle.std.specs.Prelude.{ℕ, List, Option};
    ghost use Rattle.std.specs.Global.{Vec};
    ghost use Rattle.chunk_maps.specs.Numbers.{Rise};

    ghost Value = { List (ℕ × Vec (Option C)) };

    ghost view = { λ p. p.list.items };

    ghost invariant = { λ p. Rise 0 p.list.items };
}

impl<C> NumberedPages<C> {
    /// No page. It takes no memory.
    pub fn new(alloc: Global) -> NumberedPages<C>
        ensures { result ≡ [] }
    {
        NumberedPages {
            list: Vec::new(alloc),
        }
    }

    /// The page of a number.
    pub fn get(&self, number: u64) -> Option<&Page<C>>
        ensures { option_copied result ≡ page_of self.now number }
    {
        match self.place(number) {
            Ok(place) => Some(&self.list[place].1),
            Err(_) => None,
        }
    }

    /// Where the page of a number is, or where it would be.
    pub fn place(&self, number: u64) -> Result<usize, usize>
        ensures found { IfOk result (IsAt self.now number) }
        ensures absent { IfErr result (IsGap self.now number) }
        ensures none { OnErr result (page_of self.now number ≡ None) }
    {
        let guess = self.guess(number);
        if self.is_at(guess, number) {
            return Ok(guess);
        }
        self.search(number)
    }

    /// Where the page of a number is if no number before it is left out.
    fn guess(&self, number: u64) -> usize {
        match self.list.first() {
            Some(page) => number.wrapping_sub(page.0) as usize,
            None => 0,
        }
    }

    /// Whether the page of a number is at a place.
    fn is_at(&self, place: usize, number: u64) -> bool
        ensures { IsTrue result → IsAt self.now number place }
    {
        match self.list.get(place) {
            Some(page) => page.0 == number,
            None => false,
        }
    }

    /// `place`, by halving.
    #[inline(never)]
    fn search(&self, number: u64) -> Result<usize, usize>
        ensures found { IfOk result (IsAt self.now number) }
        ensures absent { IfErr result (IsGap self.now number) }
        ensures none { OnErr result (page_of self.now number ≡ None) }
    {
        self.list.binary_search_by_key(&number, |page| page.0)
    }
}

impl<C: Drop> NumberedPages<C> {
    /// Puts a page under a number.
    pub fn insert(&mut self, number: u64, page: Page<C>) -> Result<(), AllocError>
        ensures ok { OnOk result ((other : ℕ) → page_of self.new other
            ≡ (if other == number then Some page else page_of self.old other)) }
        ensures err { OnErr result (self.new ≡ self.old) }
    {
        match self.place(number) {
            Ok(place) => {
                self.list[place].1 = page;
                Ok(())
            }
            Err(place) => Ok(self.list.insert(place, (number, page))?),
        }
    }

    /// Removes the page of a number, if it is there.
    pub fn remove(&mut self, number: u64)
        ensures { (other : ℕ) → page_of self.new other
            ≡ (if other == number then None else page_of self.old other) }
    {
        if let Ok(place) = self.place(number) {
            self.list.remove(place);
        }
    }
}

impl<C: Chunk> NumberedPages<C> {
    /// Puts an item on the page at a place. Memory is needed only where its chunk isn't there.
    pub fn put(
        &mut self,
        place: usize,
        alloc: Global,
        fileid: u64,
        item: C::Item,
    ) -> Result<(), AllocError>
        requires { IsAt self.old (fileid / page_size) place }
        ensures ok { OnOk result (Sets fileid (Some (C.value item))
            (value_among C.values self.old) (value_among C.values self.new)) }
        ensures err { OnErr result
            (SameAt (value_among C.values self.old) (value_among C.values self.new)) }
        ensures succeeds { IsSome (value_among C.values self.old fileid) → IsOk result }
    {
        put_on(&mut self.list[place].1, alloc, fileid, item)
    }

    /// Changes an item on the page at a place, if it is there, and tells the old one.
    pub fn change<F: FnOnce(C::Item) -> C::Item>(
        &mut self,
        place: usize,
        fileid: u64,
        change: F,
    ) -> Option<C::Item>
        requires callable { F.IsAlwaysCallable change }
        requires there { IsAt self.old (fileid / page_size) place }
        ensures old { option_map C.value result ≡ value_among C.values self.old fileid }
        ensures changed { (g : C.Kept → C.Kept)
            → ((x y : C.Item) → F.post change x y → C.value y ≡ g (C.value x))
            → Sets fileid (option_map g (value_among C.values self.old fileid))
            (value_among C.values self.old) (value_among C.values self.new) }
    {
        change_on(&mut self.list[place].1, fileid, change)
    }

    /// Takes an item on the page at a place, if it is there, and tells whether its chunk is empty
    /// then.
    pub fn take(&mut self, place: usize, fileid: u64) -> (Option<C::Item>, bool)
        requires { IsAt self.old (fileid / page_size) place }
        ensures item { option_map C.value result.0 ≡ value_among C.values self.old fileid }
        ensures gone { Sets fileid None
            (value_among C.values self.old) (value_among C.values self.new) }
    {
        take_on(&mut self.list[place].1, fileid)
    }

    /// Frees the chunk of a number on the page at a place if no item is in it, and tells whether
    /// the page has no chunk then.
    pub fn free(&mut self, place: usize, number: u64) -> bool
        requires { IsAt self.old (number / page_chunks) place }
        ensures same { SameAt (value_among C.values self.old) (value_among C.values self.new) }
        ensures none { IsTrue result → (fileid : ℕ) → fileid / page_size ≡ number / page_chunks
            → value_among C.values self.new fileid ≡ None }
    {
        free_on(&mut self.list[place].1, (number % PAGE_CHUNKS) as usize)
    }
}
