//! Search by name.

ghost use Rattle.std.specs.Prelude.{
  ◌≡◌,
  ◌-◌,
  ◌<◌,
  ◌≤◌,
  ◌^◌,
  ℕ,
  length,
  true,
  false,
  IfSome,
};
ghost use Rattle.directories.specs.Entries.{has};
ghost use Rattle.directories.specs.Digits.{binary_digits};
ghost use Rattle.directories.specs.Index.{IsIndex, IsAt, IsPosition, cookies, name_cmp};
ghost use Rattle.directories.specs.Index.{name_under, AreHashed, IsAround, IsHalf};
ghost use Rattle.directories.specs.Hash.{name_hash};

use crate::entries::Entries;
use crate::guesses::Guesses;
use crate::sequences::Sequence;
use crate::spot::Spot;
use std::cmp::Ordering;

/// What the hash of a name is multiplied by for each byte.
const FACTOR: u32 = 1_540_483_477;

/// How many chunks are looked at before a search by halving.
const GUESSES: usize = 4;

/// Positions of an index before and behind which a name isn't.
#[derive(Clone, Copy)]
pub struct Around {
    pub low: usize,
    pub high: usize,
}

/// Where in an index the names of a hash are guessed to begin.
#[derive(Clone, Copy)]
struct Guess {
    place: usize,
    /// The slot of the spot there, if that has the hash.
    slot: Option<u32>,
}

/// What a search for a name has found.
#[derive(Clone, Copy)]
pub struct Search {
    /// Where in the index the name is, or where it belongs.
    pub position: usize,
    pub is_there: bool,
    /// How many names were compared.
    pub compared: usize,
    /// The hash of the name.
    pub hash: u32,
}

/// All positions of an index.
pub fn whole(index: &Sequence<Spot>) -> Around
    ensures around { (hash : ℕ) → IsAround index.now hash result.low result.high }
    ensures size { result.high - result.low ≡ length index.now }
{
    let size = index.len();
    Around { low: 0, high: size }
}

/// The half of an index that the names of a hash are in, if the hash in its middle tells which.
pub fn half_of(index: &Sequence<Spot>, hash: u32) -> Option<Around>
    ensures half { IfSome result (λ a. IsHalf index.now hash a.low a.high) }
    ensures room { length index.now < 2 ^ 64 }
{
    let size = index.len();
    if size == 0 {
        return None;
    }
    let middle = size / 2;
    let in_middle = index.at(middle).hash;
    if in_middle < hash {
        return Some(Around {
            low: middle + 1,
            high: size,
        });
    }
    if in_middle > hash {
        return Some(Around {
            low: 0,
            high: middle,
        });
    }
    None
}

/// Some positions without those on one side of a position among them, if its hash tells that names
/// of a hash aren't there.
fn narrow_at(index: &Sequence<Spot>, hash: u32, bounds: Around, position: usize) -> Around
    requires { IsAround index.now hash bounds.low bounds.high }
    ensures around { IsAround index.now hash result.low result.high }
    ensures inside { result.high - result.low ≤ bounds.high - bounds.low }
{
    let Around { low, high } = bounds;
    if position < low {
        return bounds;
    }
    if position >= high {
        return bounds;
    }
    let here = index.at(position).hash;
    if here < hash {
        return Around {
            low: position + 1,
            high,
        };
    }
    if here > hash {
        return Around {
            low,
            high: position,
        };
    }
    bounds
}

/// A slot that the entry with a name of a hash is guessed in. Where none is kept for the hash, it
/// is the slot at the place in the index where the hash is guessed, which is noted for a search.
pub fn guess_slot(index: &Sequence<Spot>, guesses: &Guesses, hash: u32) -> Option<u32> {
    if let Some(slot) = guesses.slot(hash) {
        return Some(slot);
    }
    let guess = guess_place(index, hash);
    guesses.note(hash, guess.place);
    guess.slot
}

/// The slot at the place in an index where a hash is guessed. Nothing is promised of it.
pub fn slot_at_place(index: &Sequence<Spot>, hash: u32) -> Option<u32> {
    guess_place(index, hash).slot
}

/// Reads the middle of an index, and where a hash is guessed in it. Nothing is promised of the
/// result.
pub fn read_around(index: &Sequence<Spot>, hash: u32) -> u64 {
    let size = index.len();
    if size == 0 {
        return 0;
    }
    let here = index.at(share(hash, size).min(size - 1));
    let middle = index.at(size / 2);
    u64::from(here.hash | middle.hash)
}

/// Where a search for the names of a hash begins: where the last one ended, if it was for that
/// hash, or else where they are guessed.
pub fn place_for(index: &Sequence<Spot>, guesses: &Guesses, hash: u32) -> usize {
    match guesses.position(hash) {
        Some(position) => position,
        None => guess_place(index, hash).place,
    }
}

/// Where in an index the names of a hash are guessed to begin. Hashes are spread evenly and chunks
/// are in their order, so few chunks are looked at. Nothing rests on that but the time.
fn guess_place(index: &Sequence<Spot>, hash: u32) -> Guess {
    let size = index.len();
    let mut low = 0;
    let mut high = size;
    let mut guess = share(hash, size);
    for _ in 0..GUESSES {
        if low >= high {
            break;
        }
        let at = guess.clamp(low, high - 1);
        let (chunk, here) = index.chunk_at(at);
        let first = at - here;
        let lowest = chunk[0].hash;
        let highest = chunk[chunk.len() - 1].hash;
        if highest < hash {
            low = first.saturating_add(chunk.len());
            guess = low.saturating_add(share(hash - highest, size));
        } else if lowest > hash {
            high = first;
            guess = first.saturating_sub(share(lowest - hash, size) + 1);
        } else {
            let front = share_of(hash - lowest, highest - lowest, chunk.len());
            return guess_in(chunk, first, hash, front);
        }
    }
    Guess {
        place: low,
        slot: None,
    }
}

/// Where among some spots of an index, of which the first is at a position, the names of a hash
/// begin, if the spots are in the order of their hashes: at first one of them is guessed.
fn guess_in(spots: &[Spot], first: usize, hash: u32, guess: usize) -> Guess {
    let lower = lower_in(spots, hash, guess);
    let slot = match spots.get(lower) {
        Some(spot) if spot.hash == hash => Some(spot.slot),
        _ => None,
    };
    Guess {
        place: first.saturating_add(lower),
        slot,
    }
}

/// How many of some spots have lower hashes than one, if they are in the order of these: at first
/// this many are guessed.
fn lower_in(spots: &[Spot], hash: u32, guess: usize) -> usize {
    let guess = guess.min(spots.len());
    match spots[guess..].iter().position(|spot| spot.hash >= hash) {
        Some(0) => {}
        Some(more) => return guess.saturating_add(more),
        None => return spots.len(),
    }
    match spots[..guess].iter().rposition(|spot| spot.hash < hash) {
        Some(last) => last.saturating_add(1),
        None => 0,
    }
}

/// How many of this many hashes are below one, if they are spread evenly.
fn share(hash: u32, size: usize) -> usize
    ensures { result < 2 ^ 32 }
{
    (hash as usize).wrapping_mul(size) / (1 << 32)
}

/// How many of this many hashes are in the front of a gap, if they are spread evenly in it.
fn share_of(front: u32, gap: u32, size: usize) -> usize {
    (front as usize).wrapping_mul(size) / (gap as usize + 1)
}

/// Searches an index for a name, first where the last search ended, if that was for its hash.
pub fn find_position(
    entries: &Entries,
    index: &Sequence<Spot>,
    guesses: &Guesses,
    name: &[u8],
) -> Search
    requires index { IsIndex entries.now.list (cookies index.now) }
    requires hashed { AreHashed entries.now.list index.now }
    ensures hash { result.hash ≡ name_hash name.now }
    ensures within { result.position ≤ length index.now }
    ensures there { result.is_there ≡ true
        → IsAt entries.now (cookies index.now) name.now result.position }
    ensures absent { result.is_there ≡ false
        → IsPosition entries.now (cookies index.now) name.now result.position }
{
    let hash = hash_of(name);
    let place = place_for(index, guesses, hash);
    find_between(entries, index, name, hash, whole(index), place)
}

/// Searches an index for a name of a hash by halving between some positions, of which the hashes
/// next to a place leave few if the name is there or belongs there.
pub fn find_between(
    entries: &Entries,
    index: &Sequence<Spot>,
    name: &[u8],
    hash: u32,
    bounds: Around,
    place: usize,
) -> Search
    requires index { IsIndex entries.now.list (cookies index.now) }
    requires hashed { AreHashed entries.now.list index.now }
    requires around { IsAround index.now hash bounds.low bounds.high }
    requires hash { hash ≡ name_hash name.now }
    ensures hash { result.hash ≡ name_hash name.now }
    ensures within { result.position ≤ length index.now }
    ensures there { result.is_there ≡ true
        → IsAt entries.now (cookies index.now) name.now result.position }
    ensures absent { result.is_there ≡ false
        → IsPosition entries.now (cookies index.now) name.now result.position }
    ensures compared { result.compared ≤ binary_digits (bounds.high - bounds.low) }
{
    let around = narrow_at(index, hash, bounds, place.saturating_sub(1));
    let around = narrow_at(index, hash, around, place);
    let around = narrow_at(index, hash, around, place.saturating_add(1));
    let Around { mut low, mut high } = around;
    let mut compared = 0;
    let mut part = index.part();
    while low < high {
        part = part.narrowed(low, high);
        let middle = low + (high - low) / 2;
        compared += 1;
        match compare(entries, part.at(middle), name, hash) {
            Ordering::Less => low = middle + 1,
            Ordering::Greater => high = middle,
            Ordering::Equal => {
                return Search {
                    position: middle,
                    is_there: true,
                    compared,
                    hash,
                };
            }
        }
    }
    Search {
        position: low,
        is_there: false,
        compared,
        hash,
    }
}

/// How the name of an entry compares with another: by their hashes, and only where these are the
/// same by their bytes.
fn compare(entries: &Entries, spot: Spot, name: &[u8], hash: u32) -> Ordering
    requires there { has entries.now.list spot.cookie.0 ≡ true }
    requires hashed { spot.hash ≡ name_hash (name_under entries.now.list spot.cookie) }
    requires hash { hash ≡ name_hash name.now }
    ensures { result ≡ name_cmp (name_under entries.now.list spot.cookie) name.now }
{
    match spot.hash.cmp(&hash) {
        Ordering::Equal => entries.at(spot.cookie, spot.slot).name.as_bytes().cmp(name),
        other => other,
    }
}

/// The hash of a name.
pub fn hash_of(name: &[u8]) -> u32
    ensures { result ≡ name_hash name.now }
{
    let mut hash: u32 = 0;
    for byte in name {
        hash = hash.wrapping_mul(FACTOR).wrapping_add(u32::from(*byte));
    }
    hash
}
