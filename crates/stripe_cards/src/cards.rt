//! Cards by fileid.

ghost use Rattle.std.specs.Prelude.{◌≡◌, IsOk, IsSome, OnOk, OnErr};
ghost use Rattle.std.specs.Option.{option_map};
ghost use Rattle.std.specs.FinMap.{empty, get, insert, remove};
ghost use Rattle.nfs_values.specs.Moment.{moment_of};
ghost use Rattle.nfs_values.specs.Ownership.{ownership_of};
ghost use Rattle.nfs_model.specs.volume.Maps.{changed_at};
ghost use Rattle.nfs_model.specs.volume.Stripes.{
  OfFile,
  OfDirectory,
  touch_of,
  card_touched,
  card_settled,
  card_sized,
  card_owned,
};
ghost use Rattle.stripe_cards.specs.Cards.{card_of};

use crate::card::{Card, is_touched, is_untouched, owned, settled, sized, touch_on, touched};
use crate::chunk::CardChunk;
use crate::counts::{TouchCounts, class_of, count_down, count_up, no_touches};
use chunk_maps::ChunkMap;
use nfs_values::{Fileid, Moment, Ownership};
use std::alloc::{AllocError, Global};
use std::marker::Model;

/// A map from fileids to cards.
pub struct Cards {
    chunks: ChunkMap<CardChunk>,
    /// How many cards have a touch, so that where there is none the map isn't asked for it.
    touches: TouchCounts,
}

// By hand, so that crates above have no proof of the drop of each of its parts.
impl Drop for Cards {
    fn drop(self) {
        let Cards {
            chunks: _,
            touches: _,
        } = self;
    }
}

impl Model for Cards {
    ghost use Rattle.std.specs.FinMap.{FinMap};
    ghost use Rattle.std.specs.FinMap as maps;
    ghost use Rattle.std.specs.Coded.{coded_ℕ};
    ghost use Rattle.std.specs.Ordering.{nat_cmp};
    ghost use Rattle.nfs_model.specs.volume.Stripes as values;
    ghost use Rattle.nfs_model.specs.volume.Codes.{coded_card};
    ghost use Rattle.chunk_maps.specs.Maps.{values_of};
    ghost use Rattle.stripe_cards.specs.Counts.{AreCounted};

    ghost Value = { FinMap nat_cmp values.Card };

    ghost coded = { maps.code coded_ℕ coded_card };

    ghost view = { λ c. values_of c.chunks };

    ghost invariant = { λ c. AreCounted c.touches (values_of c.chunks) };
}

impl Cards {
    /// No card. It takes no memory.
    pub fn new(alloc: Global) -> Cards
        ensures { result ≡ empty }
    {
        Cards {
            chunks: ChunkMap::new(alloc),
            touches: no_touches(),
        }
    }

    /// The card of an inode.
    pub fn get(&self, fileid: Fileid) -> Option<Card>
        ensures { option_map card_of result ≡ get self.now fileid.0 }
    {
        self.chunks.get(fileid.0)
    }

    /// The touch of a file.
    pub fn touch_of(&self, fileid: Fileid) -> Option<Moment>
        ensures { option_map moment_of result ≡ touch_of (get self.now fileid.0) }
    {
        if self.touches[class_of(fileid.0)] == 0 {
            return None;
        }
        self.touch_on_card(fileid)
    }

    /// `touch_of`, by the card: apart, so that who asks all stripes has no room for their cards.
    #[inline(never)]
    fn touch_on_card(&self, fileid: Fileid) -> Option<Moment>
        ensures { option_map moment_of result ≡ touch_of (get self.now fileid.0) }
    {
        touch_on(self.get(fileid))
    }

    /// Sets the card of a file to a size and an owner; the touch stays. Memory is needed only for a
    /// card that isn't there, and where there is none for it nothing changes.
    pub fn set_file(
        &mut self,
        fileid: Fileid,
        size: u64,
        owner: Ownership,
    ) -> Result<(), AllocError>
        ensures ok { OnOk result (self.new ≡ insert self.old fileid.0
            (OfFile size (touch_of (get self.old fileid.0)) (ownership_of owner))) }
        ensures err { OnErr result (self.new ≡ self.old) }
        ensures succeeds { IsSome (get self.old fileid.0) → IsOk result }
    {
        let touch = self.touch_of(fileid);
        self.chunks.put(fileid.0, Card::File { size, touch, owner })
    }

    /// Sets the card of a directory, or of what else has no bytes in stripes. Memory is needed only
    /// for a card that isn't there, and where there is none for it nothing changes.
    pub fn set_directory(&mut self, fileid: Fileid) -> Result<(), AllocError>
        ensures ok { OnOk result (self.new ≡ insert self.old fileid.0 OfDirectory) }
        ensures err { OnErr result (self.new ≡ self.old) }
        ensures succeeds { IsSome (get self.old fileid.0) → IsOk result }
    {
        self.chunks.put(fileid.0, Card::Directory)
    }

    /// Sets the size on the card of a file, where there is one. It takes no memory.
    pub fn set_size(&mut self, fileid: Fileid, size: u64)
        ensures { self.new ≡ changed_at (card_sized size) fileid.0 self.old }
    {
        self.chunks.change(fileid.0, |card| sized(card, size));
    }

    /// Sets the owner on the card of a file, where there is one. It takes no memory.
    pub fn set_owner(&mut self, fileid: Fileid, owner: Ownership)
        ensures { self.new ≡ changed_at (card_owned (ownership_of owner)) fileid.0 self.old }
    {
        self.chunks.change(fileid.0, |card| owned(card, owner));
    }

    /// Sets the touch of a file to the later of it and a moment. It takes no memory.
    pub fn touch(&mut self, fileid: Fileid, moment: Moment)
        ensures { self.new ≡ changed_at (card_touched (moment_of moment)) fileid.0 self.old }
    {
        let card = self.chunks.change(fileid.0, |card| touched(card, moment));
        if is_untouched(card) {
            count_up(&mut self.touches, class_of(fileid.0));
        }
    }

    /// Takes the touch of a file. It takes no memory.
    pub fn take_touch(&mut self, fileid: Fileid) -> Option<Moment>
        ensures touch { option_map moment_of result ≡ touch_of (get self.old fileid.0) }
        ensures taken { self.new ≡ changed_at card_settled fileid.0 self.old }
    {
        let class = class_of(fileid.0);
        if self.touches[class] == 0 {
            return None;
        }
        let touch = touch_on(self.chunks.change(fileid.0, settled));
        if touch.is_some() {
            count_down(&mut self.touches, class);
        }
        touch
    }

    /// Removes the card of an inode. It takes no memory.
    pub fn remove(&mut self, fileid: Fileid)
        ensures { self.new ≡ remove self.old fileid.0 }
    {
        let card = self.chunks.remove(fileid.0);
        if is_touched(card) {
            count_down(&mut self.touches, class_of(fileid.0));
        }
    }
}
