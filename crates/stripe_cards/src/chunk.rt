//! Chunks of cards.

ghost use Rattle.std.specs.Prelude.{◌≡◌, is_some};
ghost use Rattle.stripe_cards.specs.Cards.{packed_card};
ghost use Rattle.chunk_maps.specs.Chunks.{one_if};

use crate::card::Card;
use crate::packed::{Packed, pack, unpack};
use chunk_maps::{Chunk, slot};
use std::alloc::{AllocError, Global};
use std::marker::Model;

/// The cards of 32 fileids that follow one another, each at its fileid modulo 32.
#[derive(Drop)]
pub struct CardChunk {
    cards: Box<[Packed; 32]>,
    /// How many there are.
    used: u64,
}

impl Model for CardChunk {
    ghost use Rattle.std.specs.Prelude.{◌≡◌, map, length};
    ghost use Rattle.std.specs.Coded.{coded_list, coded_option};
    ghost use Rattle.nfs_model.specs.volume.Codes.{coded_card};
    ghost use Rattle.stripe_cards.specs.Cards.{packed_card};
    ghost use Rattle.nfs_model.specs.volume.Stripes as values;
    ghost use Rattle.chunk_maps.specs.Chunks.{Slots, chunk_size, used_in};

    ghost Value = { Slots values.Card };

    ghost coded = { coded_list (coded_option coded_card) };

    ghost view = { λ c. map packed_card c.cards.value };

    ghost invariant = { λ c. (length c.cards.value ≡ chunk_size)
        × (c.used ≡ used_in (map packed_card c.cards.value)) };
}

/// How many cards a slot has.
fn count(packed: Packed) -> u64
    ensures { result ≡ one_if (is_some (packed_card packed)) }
{
    match packed {
        Packed::Absent => 0,
        Packed::File(_, _) => 1,
        Packed::TouchedFile(_, _, _, _) => 1,
        Packed::Directory => 1,
    }
}

impl Chunk for CardChunk {
    ghost use Rattle.nfs_model.specs.volume.Stripes as values;
    ghost use Rattle.chunk_maps.specs.Chunks.{slot_of};
    ghost use Rattle.stripe_cards.specs.Cards.{card_of};

    type Item = Card;

    ghost Kept = { values.Card };

    ghost value = { card_of };

    ghost values = { λ c. slot_of c };

    fn new(alloc: Global, fileid: u64, card: Card) -> Result<CardChunk, AllocError> {
        let mut cards = Box::new(alloc, [Packed::Absent; 32])?;
        cards[slot(fileid)] = pack(card);
        Ok(CardChunk { cards, used: 1 })
    }

    fn get(&self, fileid: u64) -> Option<Card> {
        unpack(self.cards[slot(fileid)])
    }

    fn is_empty(&self) -> bool {
        self.used == 0
    }

    fn put(&mut self, fileid: u64, card: Card) {
        let slot = slot(fileid);
        let former = self.cards[slot];
        self.cards[slot] = pack(card);
        self.used = self.used + 1 - count(former);
    }

    fn take(&mut self, fileid: u64) -> Option<Card> {
        let slot = slot(fileid);
        let former = self.cards[slot];
        self.cards[slot] = Packed::Absent;
        self.used -= count(former);
        unpack(former)
    }
}
