//! Sets of numbers as the bits of words.

ghost use Rattle.std.specs.Prelude.{
  ◌≡◌,
  ◌==◌,
  ◌||◌,
  ◌<◌,
  ◌≤◌,
  ◌+◌,
  ◌*◌,
  ◌/◌,
  ◌^◌,
  ◌++◌,
  ℕ,
  take,
  drop,
  min,
  length,
};
ghost use Rattle.std.specs.List.{prefix_len};
ghost use Rattle.nfs_model.specs.Parts.{most_carried, IsAscending};
ghost use Rattle.vbn_ranges.specs.Words.{bits_from, members, has_bit};

use crate::batch::Batch;
use crate::looks::Looks;
use nfs_values::BlockNumber;
use std::simd::prelude::*;

/// The place of the first word that isn't 0, or 16.
pub fn first_filled(words: &[u64; 16]) -> usize
    ensures { result ≡ prefix_len (λ w. w == 0) words.now }
{
    let filled = u64x16::from_array(*words)
        .simd_ne(u64x16::splat(0))
        .to_bitmask();
    if filled == 0 {
        16
    } else {
        filled.trailing_zeros() as usize
    }
}

/// The number of bits of 16 words that are set.
pub fn count(words: &[u64]) -> usize
    requires { length words.now ≡ 16 }
    ensures { (first : ℕ) → result ≡ length (members first words.now) }
{
    u64x16::from_slice(words).count_ones().strict_reduce_sum() as usize
}

/// Whether a bit is set.
pub fn has(words: &[u64], place: usize) -> bool
    requires { place / 64 < length words.now }
    ensures { result ≡ has_bit words.now place }
{
    words[place / 64] & (1 << (place % 64)) != 0
}

/// Sets a bit.
pub fn insert(words: &mut [u64; 16], place: usize)
    requires { place < 1024 }
    ensures bits { (n : ℕ) → has_bit words.new n ≡ (n == place || has_bit words.old n) }
    ensures length { length words.new ≡ 16 }
{
    words[place / 64] |= 1 << (place % 64);
}

/// Takes the lowest bits of a word, until this many are in the batch or none is left, and gives
/// what is left of the word. The lowest bit has the number first.
pub fn take_bits(word: u64, first: u32, most: usize, batch: &mut Batch) -> u64
    requires word { 0 < word }
    requires first { first + 64 ≤ 2 ^ 32 }
    requires most { most ≤ most_carried }
    requires room { length batch.old < most }
    requires ascending { IsAscending (batch.old ++ bits_from 64 first word) }
    ensures taken { batch.new ++ bits_from 64 first result ≡ batch.old ++ bits_from 64 first word }
    ensures more { length batch.old < length batch.new }
    ensures few { length batch.new ≤ most }
{
    let mut left = word;
    while left != 0 && batch.len() < most {
        batch.push(BlockNumber(first + left.trailing_zeros()));
        left &= left - 1;
    }
    left
}

/// Takes the lowest bits that are set, at most this many and 64, as block numbers, where the lowest
/// bit of the first word has the number first. It tells how many words it looked at: all at once,
/// each once more until it has enough, and each that gives a block again.
pub fn take_counted(words: &mut [u64; 16], first: u32, most: usize) -> (Batch, Looks)
    requires { first + 1024 ≤ 2 ^ 32 }
    ensures batch { result.0
        ≡ take (min most most_carried) (members first words.old) }
    ensures left { members first words.new
        ≡ drop (min most most_carried) (members first words.old) }
    ensures length { length words.new ≡ 16 }
    ensures looked { result.1.looked ≤ 32 + result.1.giving }
    ensures giving { result.1.giving ≤ length result.0 }
{
    let most = most.min(64);
    let mut batch = Batch::new();
    let mut place = first_filled(words);
    // Those that tell the first place.
    let mut looked = 16;
    let mut giving = 0;
    while place < 16 && batch.len() < most {
        let word = words[place];
        looked += 1;
        if word == 0 {
            place += 1;
        } else {
            let left = take_bits(word, first + place as u32 * 64, most, &mut batch);
            words[place] = left;
            giving += 1;
        }
    }
    (batch, Looks { looked, giving })
}
