//! The words of a range: 16 in place, or more in levels.

ghost use Rattle.std.specs.Prelude.{
  ◌≡◌,
  ◌==◌,
  ◌||◌,
  ◌+◌,
  ◌-◌,
  ◌*◌,
  ◌/◌,
  ◌^◌,
  ◌<◌,
  ◌≤◌,
  ℕ,
  take,
  drop,
  min,
  length,
  replicate,
  IfOk,
};
ghost use Rattle.nfs_model.specs.Parts.{most_carried};
ghost use Rattle.vbn_ranges.specs.Words.{members, has_bit};

use crate::batch::Batch;
use crate::levels::Levels;
use crate::looks::Looks;
use crate::words;
use std::alloc::{AllocError, Global};

/// Words of bits.
#[derive(Drop)]
pub enum Store {
    InPlace([u64; 16]),
    InLevels(Levels),
}

impl Store {
    ghost use Rattle.vbn_ranges.specs.Store.{words_in, IsStore};

    /// This many words, at least 16, no bit of which is set. Sixteen take no memory.
    pub fn none(alloc: Global, words: usize) -> Result<Store, AllocError>
        requires { words ≤ 262144 }
        ensures words { IfOk result (λ store. words_in store ≡ replicate words 0) }
        ensures store { IfOk result IsStore }
    {
        if words == 16 {
            return Ok(Store::InPlace([0; 16]));
        }
        Ok(Store::InLevels(Levels::none(alloc, words)?))
    }

    /// Sets each bit.
    pub fn fill(&mut self)
        requires { IsStore self.old }
        ensures words { words_in self.new ≡ replicate (length (words_in self.old)) (2 ^ 64 - 1) }
        ensures store { IsStore self.new }
    {
        match self {
            Store::InPlace(words) => *words = [u64::MAX; 16],
            Store::InLevels(levels) => levels.fill(),
        }
    }

    /// The number of bits that are set.
    pub fn count(&self) -> usize
        requires { IsStore self.now }
        ensures { (first : ℕ) → result ≡ length (members first (words_in self.now)) }
    {
        match self {
            Store::InPlace(words) => words::count(words),
            Store::InLevels(levels) => levels.count,
        }
    }

    /// Whether a bit is set.
    pub fn has(&self, place: usize) -> bool
        requires store { IsStore self.now }
        requires within { place / 64 < length (words_in self.now) }
        ensures { result ≡ has_bit (words_in self.now) place }
    {
        match self {
            Store::InPlace(words) => words::has(words, place),
            Store::InLevels(levels) => levels.has(place),
        }
    }

    /// Sets a bit.
    pub fn insert(&mut self, place: usize)
        requires store { IsStore self.old }
        requires within { place / 64 < length (words_in self.old) }
        ensures bits { (n : ℕ) → has_bit (words_in self.new) n
            ≡ (n == place || has_bit (words_in self.old) n) }
        ensures length { length (words_in self.new) ≡ length (words_in self.old) }
        ensures store { IsStore self.new }
    {
        match self {
            Store::InPlace(words) => words::insert(words, place),
            Store::InLevels(levels) => levels.insert(place),
        }
    }

    /// Takes the lowest bits that are set, at most this many and 64, as block numbers, where the
    /// lowest bit of the first word has the number first. It tells how many words it looked at: at
    /// most 8 for each word that gives a block, and 32 more.
    pub fn take_counted(&mut self, first: u32, most: usize) -> (Batch, Looks)
        requires store { IsStore self.old }
        requires first { first + 64 * length (words_in self.old) ≤ 2 ^ 32 }
        ensures batch { result.0
            ≡ take (min most most_carried) (members first (words_in self.old)) }
        ensures left { members first (words_in self.new)
            ≡ drop (min most most_carried) (members first (words_in self.old)) }
        ensures length { length (words_in self.new) ≡ length (words_in self.old) }
        ensures store { IsStore self.new }
        ensures looked { result.1.looked ≤ 32 + 8 * result.1.giving }
        ensures giving { result.1.giving ≤ length result.0 }
    {
        match self {
            Store::InPlace(words) => words::take_counted(words, first, most),
            Store::InLevels(levels) => levels.take_counted(first, most),
        }
    }
}
