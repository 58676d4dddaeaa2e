//! Sets of numbers as the bits of many words, with summaries above them.

ghost use Rattle.std.specs.Prelude.{◌≡◌, ◌==◌, ◌||◌, ◌+◌, ◌-◌, ◌*◌, ◌/◌, ◌^◌, ◌<◌, ◌≤◌, ℕ, true};
ghost use Rattle.std.specs.Prelude.{false, take, drop, min, length, replicate, slice_index};
ghost use Rattle.std.specs.Prelude.{slice_set, if◌then◌else◌, IfOk};
ghost use Rattle.nfs_model.specs.Parts.{most_carried};
ghost use Rattle.vbn_ranges.specs.Summary.{IsSummary};
ghost use Rattle.vbn_ranges.specs.Words.{members, has_bit};

use crate::batch::Batch;
use crate::looks::Looks;
use crate::words;
use crate::words::take_bits;
use std::alloc::{AllocError, Global};

/// Words of at most 16,777,216 bits. A search reads one word of each level.
#[derive(Drop)]
pub struct Levels {
    /// A bit for each block.
    pub words: Vec<u64>,
    /// A bit for each word, set where it isn't 0.
    pub low: Vec<u64>,
    /// A bit for each word of `low`, set where it isn't 0.
    pub middle: Vec<u64>,
    /// A bit for each word of `middle`, set where it isn't 0.
    pub top: Vec<u64>,
    /// How many bits of the words are set.
    pub count: usize,
}

/// Sets or clears a bit.
fn set_bit(words: &mut Vec<u64>, place: usize, to: bool)
    requires { place / 64 < length words.old.items }
    ensures bits { (n : ℕ) → has_bit words.new.items n
        ≡ (if n == place then to else has_bit words.old.items n) }
    ensures others { (k : ℕ) → (k == place / 64) ≡ false
        → slice_index words.new.items k ≡ slice_index words.old.items k }
    ensures length { length words.new.items ≡ length words.old.items }
{
    let bit = 1 << (place % 64);
    if to {
        words[place / 64] |= bit;
    } else {
        words[place / 64] &= !bit;
    }
}

/// The place of the lowest bit that is set of words, of which the first that isn't 0 is given.
fn lowest_bit(words: &[u64], first_filled: usize) -> usize
    requires few { length words.now ≤ 262144 }
    requires within { first_filled < length words.now }
    requires filled { 0 < slice_index words.now first_filled }
    requires before { (k : ℕ) → k < first_filled → slice_index words.now k ≡ 0 }
    ensures bit { has_bit words.now result ≡ true }
    ensures before { (k : ℕ) → k < result → has_bit words.now k ≡ false }
{
    first_filled * 64 + words[first_filled].trailing_zeros() as usize
}

/// Sets each bit of the upper words where the lower word isn't 0, and clears the others. Those past
/// the lower words are clear.
fn sum_up(lower: &Vec<u64>, upper: &mut Vec<u64>)
    requires size { length lower.now.items ≤ 64 * length upper.old.items }
    requires past { (k : ℕ) → length lower.now.items ≤ k → has_bit upper.old.items k ≡ false }
    ensures summary { IsSummary lower.now.items upper.new.items }
    ensures length { length upper.new.items ≡ length upper.old.items }
{
    for place in 0..lower.len() {
        set_bit(upper, place, lower[place] != 0);
    }
}

/// Sets each bit of each word.
fn fill_words(words: &mut Vec<u64>)
    ensures { words.new.items ≡ replicate (length words.old.items) (2 ^ 64 - 1) }
{
    for place in 0..words.len() {
        words[place] = u64::MAX;
    }
}

impl Levels {
    ghost use Rattle.vbn_ranges.specs.Levels.{HasSummaries, AreLevels};

    /// This many words, no bit of which is set.
    pub fn none(alloc: Global, words: usize) -> Result<Levels, AllocError>
        requires { words ≤ 262144 }
        ensures words { IfOk result (λ levels. levels.words.items ≡ replicate words 0) }
        ensures levels { IfOk result AreLevels }
    {
        let low = words.div_ceil(64);
        let middle = low.div_ceil(64);
        Ok(Levels {
            words: vec![in alloc; 0; words]?,
            low: vec![in alloc; 0; low]?,
            middle: vec![in alloc; 0; middle]?,
            top: vec![in alloc; 0; 1]?,
            count: 0,
        })
    }

    /// Sets each bit.
    pub fn fill(&mut self)
        requires { AreLevels self.old }
        ensures words { self.new.words.items
            ≡ replicate (length self.old.words.items) (2 ^ 64 - 1) }
        ensures levels { AreLevels self.new }
    {
        fill_words(&mut self.words);
        sum_up(&self.words, &mut self.low);
        sum_up(&self.low, &mut self.middle);
        sum_up(&self.middle, &mut self.top);
        self.count = self.words.len() * 64;
    }

    /// Whether a bit is set.
    pub fn has(&self, place: usize) -> bool
        requires { place / 64 < length self.now.words.items }
        ensures { result ≡ has_bit self.now.words.items place }
    {
        words::has(&self.words, place)
    }

    /// Sets a bit.
    pub fn insert(&mut self, place: usize)
        requires levels { AreLevels self.old }
        requires within { place / 64 < length self.old.words.items }
        ensures bits { (n : ℕ) → has_bit self.new.words.items n
            ≡ (n == place || has_bit self.old.words.items n) }
        ensures length { length self.new.words.items ≡ length self.old.words.items }
        ensures levels { AreLevels self.new }
    {
        if !self.has(place) {
            let word = self.words[place / 64] | (1 << (place % 64));
            self.put(place / 64, word);
            self.count += 1;
        }
    }

    /// Puts a word, and what the levels above tell of it. It looks at four words, or at one where
    /// they tell the same as before.
    fn put(&mut self, place: usize, word: u64)
        requires summaries { HasSummaries self.old }
        requires within { place < length self.old.words.items }
        ensures words { self.new.words.items ≡ slice_set self.old.words.items place word }
        ensures summaries { HasSummaries self.new }
        ensures count { self.new.count ≡ self.old.count }
    {
        let was_filled = self.words[place] != 0;
        self.words[place] = word;
        if was_filled == (word != 0) {
            return;
        }
        set_bit(&mut self.low, place, word != 0);
        let of_low = place / 64;
        let is_low = self.low[of_low] != 0;
        set_bit(&mut self.middle, of_low, is_low);
        let of_middle = of_low / 64;
        let is_middle = self.middle[of_middle] != 0;
        set_bit(&mut self.top, of_middle, is_middle);
    }

    /// The place of the first word that isn't 0, where there is one. It looks at three words.
    fn first_filled(&self) -> usize
        requires summaries { HasSummaries self.now }
        requires few { length self.now.words.items ≤ 262144 }
        requires some { 0 < slice_index self.now.top.items 0 }
        ensures within { result < length self.now.words.items }
        ensures filled { 0 < slice_index self.now.words.items result }
        ensures before { (k : ℕ) → k < result → slice_index self.now.words.items k ≡ 0 }
    {
        let of_middle = lowest_bit(&self.top, 0);
        let of_low = lowest_bit(&self.middle, of_middle);
        lowest_bit(&self.low, of_low)
    }

    /// Takes the lowest bits that are set, at most this many and 64, as block numbers, where the
    /// lowest bit of the first word has the number first. It tells how many words it looked at: at
    /// most 8 for each word that gives a block, and one more.
    pub fn take_counted(&mut self, first: u32, most: usize) -> (Batch, Looks)
        requires levels { AreLevels self.old }
        requires first { first + 64 * length self.old.words.items ≤ 2 ^ 32 }
        ensures batch { result.0
            ≡ take (min most most_carried) (members first self.old.words.items) }
        ensures left { members first self.new.words.items
            ≡ drop (min most most_carried) (members first self.old.words.items) }
        ensures length { length self.new.words.items ≡ length self.old.words.items }
        ensures levels { AreLevels self.new }
        ensures looked { result.1.looked ≤ 1 + 8 * result.1.giving }
        ensures giving { result.1.giving ≤ length result.0 }
    {
        let most = most.min(64);
        let mut batch = Batch::new();
        let mut looked = 0;
        let mut giving = 0;
        while batch.len() < most && self.top[0] != 0 {
            let place = self.first_filled();
            let word = self.words[place];
            // A word of each level.
            looked += 4;
            let left = take_bits(word, first + place as u32 * 64, most, &mut batch);
            self.put(place, left);
            // A word of each level above.
            looked += 3;
            giving += 1;
        }
        self.count -= batch.len();
        // The top, which ends the search.
        looked += 1;
        (batch, Looks { looked, giving })
    }
}
