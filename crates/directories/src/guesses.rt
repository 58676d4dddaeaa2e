//! Guesses of the slots that entries are in, by the hashes of their names.

ghost use Rattle.std.specs.Prelude.{◌<◌, ◌^◌};

use crate::sequences::Sequence;
use crate::spot::Spot;
use std::alloc::{AllocError, Global};
use std::cell::Cell;

/// How many words the names of a hash share: as many as a line of a cache holds.
const LINE: usize = 16;

/// Among fewer names none is guessed: what a search reads of their index is in a cache.
const FEW: usize = 1024;

/// Where a search for a name of a hash ended.
#[derive(Clone, Copy)]
struct Ended {
    hash: u32,
    position: usize,
}

/// For the hashes of names, slots that their entries are guessed in. Nothing rests on a guess but
/// the time of a search: a name may have none, or one of a slot that has another entry by now.
#[derive(Drop)]
pub struct Guesses {
    alloc: Global,
    /// No word, or a power of two of them, in lines. The low bits of a hash tell its line. A word's
    /// low bits are a slot's number and one more, or 0 for no guess; the others are the hash's.
    words: Vec<u32>,
    /// The low bits of a word, in which it has a slot: those that tell the words apart.
    mask: u32,
    /// How far the index has been gone through since there are this many words, or the most if
    /// whole.
    seen: usize,
    /// Where in the index the last search ended: a call that adds or removes a name looks it up
    /// first.
    last: Cell<Ended>,
}

impl Guesses {
    /// No guess. It takes no memory.
    pub fn new(alloc: Global) -> Guesses {
        Guesses {
            alloc,
            words: Vec::new(alloc),
            mask: 0,
            seen: usize::MAX,
            last: Cell::new(Ended {
                hash: 0,
                position: 0,
            }),
        }
    }

    /// Notes where in the index a search for a name of a hash has ended.
    pub fn note(&self, hash: u32, position: usize) {
        self.last.set(Ended { hash, position });
    }

    /// Where in the index the last search ended, if it was for a name of a hash.
    pub fn position(&self, hash: u32) -> Option<usize> {
        let ended = self.last.get();
        if ended.hash == hash {
            return Some(ended.position);
        }
        None
    }

    /// A slot that the entry with a name of a hash is guessed in.
    pub fn slot(&self, hash: u32) -> Option<u32> {
        let first = first_of(hash, self.mask);
        let line = self.words.get(first..first + LINE)?;
        for word in line {
            let slot = slot_in(*word, hash, self.mask);
            if slot.is_some() {
                return slot;
            }
        }
        None
    }

    /// Whether there are no words, as in a small directory.
    pub fn is_empty(&self) -> bool {
        self.words.is_empty()
    }

    /// The first word of the line of a hash, or 0.
    pub fn first_word(&self, hash: u32) -> u32 {
        match self.words.get(first_of(hash, self.mask)) {
            Some(word) => *word,
            None => 0,
        }
    }

    /// Guesses an entry with a name of a hash in a slot. Where the hash's words all have guesses,
    /// one of them goes.
    pub fn put(&mut self, hash: u32, slot: u32) {
        let Some(word) = word_of(slot, hash, self.mask) else {
            return;
        };
        if place_of(&self.words, hash, self.mask, word).is_some() {
            return;
        }
        let place = match place_of(&self.words, hash, self.mask, 0) {
            Some(place) => place,
            None => first_of(hash, self.mask) + slot as usize % LINE,
        };
        put_word(&mut self.words, place, word);
    }

    /// Takes back the guess of an entry with a name of a hash in a slot, if there is one.
    pub fn take(&mut self, hash: u32, slot: u32) {
        let Some(word) = word_of(slot, hash, self.mask) else {
            return;
        };
        if let Some(place) = place_of(&self.words, hash, self.mask, word) {
            put_word(&mut self.words, place, 0);
        }
    }

    /// Where an index has outgrown the words, takes twice as many. These have none at first, and
    /// each call goes through one more run of the index, until the whole is guessed.
    pub fn fit(&mut self, index: &Sequence<Spot>) {
        if index.len() >= FEW && index.len() > self.words.len() / 8 * 7 {
            self.grow();
        }
        let seen = self.seen;
        if seen < index.len() {
            let run = index.run_at(seen);
            self.put_run(run);
            let next = seen + run.len();
            self.seen = if next < index.len() { next } else { usize::MAX };
        }
    }

    /// Takes twice as many words, without a guess. Where there is no memory nothing changes.
    fn grow(&mut self) {
        let size = self.words.len().saturating_mul(2).max(2 * FEW);
        let Ok(words) = zeros(self.alloc, size) else {
            return;
        };
        if let Ok(mask) = u32::try_from(words.len().saturating_sub(1)) {
            self.words = words;
            self.mask = mask;
            self.seen = 0;
        }
    }

    /// Guesses some entries of an index.
    fn put_run(&mut self, run: &[Spot]) {
        for spot in run {
            self.put(spot.hash, spot.slot);
        }
    }
}

/// This many words without a guess.
fn zeros(alloc: Global, size: usize) -> Result<Vec<u32>, AllocError> {
    vec![in alloc; 0; size]
}

/// Where among the words the line of a hash begins.
fn first_of(hash: u32, mask: u32) -> usize
    ensures { result < 2 ^ 36 }
{
    (hash as usize * LINE) & mask as usize
}

/// The slot that a word has, if it has one for a hash.
fn slot_in(word: u32, hash: u32, mask: u32) -> Option<u32> {
    if (word ^ hash) > mask {
        return None;
    }
    (word & mask).checked_sub(1)
}

/// The word with a slot for a hash, if the slot fits into its low bits.
fn word_of(slot: u32, hash: u32, mask: u32) -> Option<u32> {
    if slot >= mask {
        return None;
    }
    Some((hash & !mask) | (slot + 1))
}

/// The place of a word in the line of a hash.
fn place_of(words: &[u32], hash: u32, mask: u32, wanted: u32) -> Option<usize> {
    let first = first_of(hash, mask);
    for place in first..first + LINE {
        if *words.get(place)? == wanted {
            return Some(place);
        }
    }
    None
}

/// Puts a word at a place.
fn put_word(words: &mut Vec<u32>, place: usize, word: u32) {
    if let Some(at) = words.get_mut(place) {
        *at = word;
    }
}
