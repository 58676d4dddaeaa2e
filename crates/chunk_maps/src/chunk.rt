//! One chunk.

ghost use Rattle.std.specs.Prelude.{
  ◌≡◌,
  ◌%◌,
  ◌<◌,
  ℕ,
  Option,
  None,
  Some,
  IsTrue,
  IfOk,
};
ghost use Rattle.std.specs.Option.{option_map};
ghost use Rattle.chunk_maps.specs.Chunks.{chunk_size, SetsAt};

use std::alloc::{AllocError, Global};

/// How many fileids a chunk has.
pub const CHUNK_SIZE: u64 = 32;

/// The slot of a fileid in its chunk.
pub fn slot(fileid: u64) -> usize
    ensures slot { result ≡ fileid % chunk_size }
    ensures within { result < 32 }
{
    (fileid % CHUNK_SIZE) as usize
}

/// What is kept of 32 fileids that follow one another, each at its fileid modulo 32.
pub trait Chunk: Drop {
    /// What is kept of a fileid.
    type Item: Copy;

    // An item's value.
    ghost Kept: { Type 0 };

    ghost value: { Self.Item → Kept };

    // The value of each fileid.
    ghost values: { Self → ℕ → Option Kept };

    /// A chunk with one item.
    fn new(alloc: Global, fileid: u64, item: Self::Item) -> Result<Self, AllocError>
        ensures { IfOk result (λ new. SetsAt fileid (Some (value item)) (λ _. None) (values new)) };

    /// The item of a fileid.
    fn get(&self, fileid: u64) -> Option<Self::Item>
        ensures { option_map value result ≡ values self.now fileid };

    /// Whether no item is there.
    fn is_empty(&self) -> bool
        ensures { IsTrue result → (q : ℕ) → values self.now q ≡ None };

    /// Puts the item of a fileid.
    fn put(&mut self, fileid: u64, item: Self::Item)
        ensures { SetsAt fileid (Some (value item)) (values self.old) (values self.new) };

    /// Takes the item of a fileid, if it is there.
    fn take(&mut self, fileid: u64) -> Option<Self::Item>
        ensures item { option_map value result ≡ values self.old fileid }
        ensures gone { SetsAt fileid None (values self.old) (values self.new) };
}
