//! A stripe.

ghost use Rattle.std.specs.Prelude.{◌≡◌, ◌+◌, ◌%◌, ◌<◌, ◌≤◌, ◌++◌, [], length, true, false, IsTrue};
ghost use Rattle.std.specs.Prelude.{IsOk, IsSome, OnOk, OnErr};
ghost use Rattle.std.specs.FinMap.{get};
ghost use Rattle.std.specs.Option.{option_map};
ghost use Rattle.std.specs.Vec.{vec_len, vec_capacity};
ghost use Rattle.nfs_model.specs.Home.{span_bytes};
ghost use Rattle.nfs_values.specs.Moment.{moment_of};
ghost use Rattle.nfs_values.specs.Ownership.{ownership_of};
ghost use Rattle.nfs_model.specs.volume.Stripes.{
  IsStripe,
  empty_stripe,
  bytes_read,
  is_filled,
  stays_within,
  touch_of,
  touch_taken,
  file_card_sized,
  file_card_owned,
  card_dropped,
  block_inserted,
  block_taken,
  block_numbered,
  overwritten,
  reaches,
  cut,
  numbers_freed,
};
ghost use Rattle.stripe_cards.specs.Cards.{card_of, card_set};

use crate::blocks::Blocks;
use crate::freed_blocks::{FreedBlocks, GiveBack};
use nfs_values::{BlockNumber, Fileid, Moment, Ownership, Verifier};
use std::alloc::{AllocError, Global};
use std::marker::Model;
use stripe_cards::{Card, CardKind, Cards};

/// A stripe of a volume: a card of each inode, and the blocks of the spans that lie in it.
pub struct Stripe {
    verifier: Verifier,
    stripes: u32,
    largest: u64,
    cards: Cards,
    blocks: Blocks,
}

// By hand, so that crates above have no proof of the drop of each of its parts.
impl Drop for Stripe {
    fn drop(self) {
        let Stripe {
            verifier: _,
            stripes: _,
            largest: _,
            cards: _,
            blocks: _,
        } = self;
    }
}

impl Model for Stripe {
    ghost use Rattle.nfs_model.specs.volume.Stripes.{StripeValue};
    ghost use Rattle.nfs_model.specs.volume.Codes.{coded_stripe};
    ghost use Rattle.stripes.specs.Spans.{IsLong};

    ghost Value = { StripeValue };

    ghost coded = { coded_stripe };

    ghost view = { λ s. record {
      verifier = s.verifier.0;
      stripes = s.stripes;
      largest = s.largest;
      cards = s.cards;
      blocks = s.blocks;
    } };

    ghost invariant = { λ s. IsLong s.blocks };
}

impl Stripe {
    /// A stripe of a volume with this many stripes and a largest size of a file, with the write
    /// verifier of the run. It takes no memory.
    pub fn new(alloc: Global, verifier: Verifier, stripes: u32, largest: u64) -> Stripe
        ensures { result ≡ empty_stripe verifier.0 stripes largest }
    {
        Stripe {
            verifier,
            stripes,
            largest,
            cards: Cards::new(alloc),
            blocks: Blocks::new(alloc),
        }
    }

    /// The write verifier (writeverf3, RFC 1813 section 3.3.7).
    pub fn verifier(&self) -> Verifier
        ensures { result.0 ≡ self.now.verifier }
    {
        self.verifier
    }

    /// How many stripes the volume has.
    pub fn stripes(&self) -> u32
        ensures { result ≡ self.now.stripes }
    {
        self.stripes
    }

    /// The largest size of a file of the volume, in bytes.
    pub fn largest(&self) -> u64
        ensures { result ≡ self.now.largest }
    {
        self.largest
    }

    /// The card of an inode.
    pub fn card(&self, fileid: Fileid) -> Option<Card>
        ensures card { option_map card_of result ≡ get self.now.cards fileid.0 }
        ensures stripe { IsStripe self.now }
    {
        self.cards.get(fileid)
    }

    /// The touch of a file: the latest moment of a write to this stripe since it was last taken.
    pub fn touch(&self, fileid: Fileid) -> Option<Moment>
        ensures { option_map moment_of result ≡ touch_of (get self.now.cards fileid.0) }
    {
        self.cards.touch_of(fileid)
    }

    /// Sets the card of an inode; the touch of a file stays. Memory is needed only for a card that
    /// isn't there, and where there is none for it nothing changes.
    pub fn set_card(&mut self, fileid: Fileid, card: CardKind) -> Result<(), AllocError>
        ensures ok { OnOk result (self.new ≡ card_set fileid.0 card self.old) }
        ensures err { OnErr result (self.new ≡ self.old) }
        ensures succeeds { IsSome (get self.old.cards fileid.0) → IsOk result }
    {
        match card {
            CardKind::File { size, owner } => self.cards.set_file(fileid, size, owner),
            CardKind::Directory => self.cards.set_directory(fileid),
        }
    }

    /// Sets the size on the card of a file, where there is one. It takes no memory.
    pub fn set_size(&mut self, fileid: Fileid, size: u64)
        ensures { self.new ≡ file_card_sized fileid.0 size self.old }
    {
        self.cards.set_size(fileid, size);
    }

    /// Sets the owner on the card of a file, where there is one. It takes no memory.
    pub fn set_owner(&mut self, fileid: Fileid, owner: Ownership)
        ensures { self.new ≡ file_card_owned fileid.0 (ownership_of owner) self.old }
    {
        self.cards.set_owner(fileid, owner);
    }

    /// Removes the card of an inode. It takes no memory.
    pub fn drop_card(&mut self, fileid: Fileid)
        ensures { self.new ≡ card_dropped fileid.0 self.old }
    {
        self.cards.remove(fileid);
    }

    /// Takes the touch of a file: the latest moment of a write to this stripe since it was last
    /// taken. It takes no memory.
    pub fn take_touch(&mut self, fileid: Fileid) -> Option<Moment>
        ensures touch { option_map moment_of result ≡ touch_of (get self.old.cards fileid.0) }
        ensures taken { self.new ≡ touch_taken fileid.0 self.old }
    {
        self.cards.take_touch(fileid)
    }

    /// Whether a block of a file is filled, and no hole. It takes no memory.
    pub fn is_filled(&self, fileid: Fileid, block: u64) -> bool
        ensures { result ≡ is_filled self.now fileid.0 block }
    {
        self.blocks.is_filled(fileid.0, block)
    }

    /// Appends n bytes of a file from an offset on, which lie in one span, whatever the file's
    /// size. A hole reads as zeros. It takes no memory.
    pub fn read(&self, fileid: Fileid, offset: u64, n: usize, into: &mut Vec<u8>)
        requires span { offset % span_bytes + n ≤ span_bytes }
        requires room { vec_len into.old + n ≤ vec_capacity into.old }
        ensures bytes { into.new.items ≡ into.old.items ++ bytes_read self.now fileid.0 offset n }
        ensures capacity { vec_capacity into.old ≤ vec_capacity into.new }
    {
        self.blocks.read(fileid.0, offset, n, into);
    }

    /// Writes bytes at an offset of a file, which lie in one span, at a moment, and tells whether
    /// it did. Where the write would extend the file or fill a hole nothing changes. To write no
    /// bytes changes nothing, whatever the file. It takes no memory.
    pub fn overwrite(&mut self, fileid: Fileid, offset: u64, written: &[u8], moment: Moment) -> bool
        requires span { offset % span_bytes + length written.now ≤ span_bytes }
        ensures answer { 0 < length written.now
            → result ≡ stays_within fileid.0 offset (length written.now) self.old }
        ensures written { 0 < length written.now
            → IsTrue result
            → self.new ≡ overwritten fileid.0 offset written.now (moment_of moment) self.old }
        ensures kept { result ≡ false → self.new ≡ self.old }
        ensures nothing { length written.now ≡ 0 → (result ≡ true) × (self.new ≡ self.old) }
    {
        if written.is_empty() {
            return true;
        }
        if !reaches(self.cards.get(fileid), offset, written.len()) {
            return false;
        }
        if !self.blocks.overwrite(fileid.0, offset, written) {
            return false;
        }
        self.cards.touch(fileid, moment);
        true
    }

    /// Fills a block of a file with zeros; its number in the volume is given. A block that was
    /// there is dropped, and its number forgotten. Where there is no memory nothing changes.
    pub fn insert_block(
        &mut self,
        fileid: Fileid,
        block: u64,
        number: BlockNumber,
    ) -> Result<(), AllocError>
        ensures ok { OnOk result (self.new ≡ block_inserted fileid.0 block number.0 self.old) }
        ensures err { OnErr result (self.new ≡ self.old) }
    {
        self.blocks.insert(fileid.0, block, number)
    }

    /// Takes a block of a file, if it is filled, and tells its number: a hole is left. It takes no
    /// memory.
    pub fn take_block(&mut self, fileid: Fileid, block: u64) -> Option<BlockNumber>
        ensures there { option_map (λ n. n.0) result
            ≡ option_map (λ b. b.number) (get self.old.blocks (fileid.0, block)) }
        ensures taken { self.new ≡ block_taken fileid.0 block self.old }
    {
        self.blocks.take(fileid.0, block)
    }

    /// Puts a block of a file, if it is filled, under another number in the volume; its bytes stay.
    /// It takes no memory.
    pub fn set_number(&mut self, fileid: Fileid, block: u64, number: BlockNumber)
        ensures { self.new ≡ block_numbered fileid.0 block number.0 self.old }
    {
        self.blocks.set_number(fileid.0, block, number);
    }

    /// Writes bytes at an offset of a file, which lie in one span, at a moment, over the blocks
    /// that are there: what would fall into a hole isn't kept, and the size stays. It takes no
    /// memory.
    pub fn write_filled(&mut self, fileid: Fileid, offset: u64, written: &[u8], moment: Moment)
        requires some { 0 < length written.now }
        requires span { offset % span_bytes + length written.now ≤ span_bytes }
        ensures { self.new ≡ overwritten fileid.0 offset written.now (moment_of moment) self.old }
    {
        self.blocks.write(fileid.0, offset, written);
        let cards = &mut self.cards;
        cards.touch(fileid, moment);
    }

    /// Cuts a file to a size in steps, to be called until it answers `false`. Each step before
    /// that frees the blocks of a span that lie wholly past the size, and leaves their numbers in
    /// `freed`, in place of what was there; the last sets the rest of the block in which the size
    /// lies to zero. It needs no memory; that of the blocks is given back as is asked.
    pub fn cut(
        &mut self,
        fileid: Fileid,
        size: u64,
        memory: GiveBack,
        freed: &mut FreedBlocks,
    ) -> bool
        ensures freed { IsTrue result → numbers_freed fileid.0 size self.old
            ≡ freed.new ++ numbers_freed fileid.0 size self.new }
        ensures some { IsTrue result → 0 < length freed.new }
        ensures rest { IsTrue result
            → cut fileid.0 size self.new ≡ cut fileid.0 size self.old }
        ensures none { result ≡ false → numbers_freed fileid.0 size self.old ≡ [] }
        ensures done { result ≡ false → self.new ≡ cut fileid.0 size self.old }
    {
        self.blocks.cut(fileid.0, size, memory, freed)
    }

    /// Gives back the memory of this many blocks at least that cuts left for later, or of all that
    /// they left, and tells of how many blocks.
    pub fn give_back(&mut self, blocks: usize) -> usize
        ensures { self.new ≡ self.old }
    {
        self.blocks.give_back(blocks)
    }
}

/// Whether a card is of a file that has n bytes from an offset on.
fn reaches(card: Option<Card>, offset: u64, n: usize) -> bool
    ensures { result ≡ reaches (offset + n) (option_map card_of card) }
{
    match card {
        Some(Card::File { size, .. }) => offset <= size && n as u64 <= size - offset,
        Some(Card::Directory) => false,
        None => false,
    }
}
