//! Cards as they are stored.

ghost use Rattle.std.specs.Prelude.{◌≡◌, Some};
ghost use Rattle.std.specs.Option.{option_map};
ghost use Rattle.nfs_values.specs.Ownership.{ownership_of};
ghost use Rattle.stripe_cards.specs.Cards.{card_of, packed_owner, packed_card};

use crate::card::Card;
use crate::owner::PackedOwner;
use nfs_values::{Moment, Ownership};

/// A card in 27 bytes, of which a chunk takes less room, or none. Numbers are little-endian.
#[derive(Clone, Copy)]
pub enum Packed {
    Absent,
    /// The size and the owner of a file without a touch.
    File([u8; 8], PackedOwner),
    /// The size and the owner of a file, and the seconds and nanoseconds of its touch.
    TouchedFile([u8; 8], PackedOwner, [u8; 4], [u8; 4]),
    Directory,
}

/// An owner as it is stored.
fn pack_owner(owner: Ownership) -> PackedOwner
    ensures { packed_owner result ≡ ownership_of owner }
{
    PackedOwner {
        mode: owner.mode.to_le_bytes(),
        uid: owner.uid.to_le_bytes(),
        gid: owner.gid.to_le_bytes(),
    }
}

/// The owner that is stored.
fn unpack_owner(packed: PackedOwner) -> Ownership
    ensures { ownership_of result ≡ packed_owner packed }
{
    Ownership {
        mode: u16::from_le_bytes(packed.mode),
        uid: u32::from_le_bytes(packed.uid),
        gid: u32::from_le_bytes(packed.gid),
    }
}

/// A card as it is stored.
pub fn pack(card: Card) -> Packed
    ensures { packed_card result ≡ Some (card_of card) }
{
    match card {
        Card::File {
            size,
            touch: None,
            owner,
        } => Packed::File(size.to_le_bytes(), pack_owner(owner)),
        Card::File {
            size,
            touch: Some(touch),
            owner,
        } => Packed::TouchedFile(
            size.to_le_bytes(),
            pack_owner(owner),
            touch.seconds.to_le_bytes(),
            touch.nanoseconds.to_le_bytes(),
        ),
        Card::Directory => Packed::Directory,
    }
}

/// The card that is stored, if there is one.
pub fn unpack(packed: Packed) -> Option<Card>
    ensures { option_map card_of result ≡ packed_card packed }
{
    match packed {
        Packed::Absent => None,
        Packed::File(size, owner) => Some(Card::File {
            size: u64::from_le_bytes(size),
            touch: None,
            owner: unpack_owner(owner),
        }),
        Packed::TouchedFile(size, owner, seconds, nanoseconds) => Some(Card::File {
            size: u64::from_le_bytes(size),
            touch: Some(Moment {
                seconds: u32::from_le_bytes(seconds),
                nanoseconds: u32::from_le_bytes(nanoseconds),
            }),
            owner: unpack_owner(owner),
        }),
        Packed::Directory => Some(Card::Directory),
    }
}
