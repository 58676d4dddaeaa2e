//! One card.

ghost use Rattle.std.specs.Prelude.{◌≡◌, is_some};
ghost use Rattle.std.specs.Option.{option_map};
ghost use Rattle.nfs_values.specs.Moment.{moment_of};
ghost use Rattle.nfs_model.specs.Shown.{touched as later_moment};
ghost use Rattle.nfs_values.specs.Ownership.{ownership_of};
ghost use Rattle.nfs_model.specs.volume.Stripes.{
  touch_of,
  card_touched,
  card_settled,
  card_sized,
  card_owned,
};
ghost use Rattle.stripe_cards.specs.Cards.{card_of};
ghost use Rattle.stripe_cards.specs.Counts.{is_untouched};

use nfs_values::{Moment, Ownership};

/// What a stripe knows of an inode.
#[derive(Clone, Copy, Debug, PartialEq, Eq)]
pub enum Card {
    File {
        /// In bytes.
        size: u64,
        /// The latest moment of a write to this stripe since the file's times were last set.
        touch: Option<Moment>,
        owner: Ownership,
    },
    /// Of what has no bytes in stripes: a directory, a symbolic link, a FIFO, a socket or a device.
    Directory,
}

/// What a card tells but for its touch.
#[derive(Clone, Copy, Debug, PartialEq, Eq)]
pub enum CardKind {
    File {
        /// In bytes.
        size: u64,
        owner: Ownership,
    },
    /// Of what has no bytes in stripes.
    Directory,
}

/// A card with the touch set to the later of it and a moment.
pub(crate) fn touched(card: Card, moment: Moment) -> Card
    ensures { card_of result ≡ card_touched (moment_of moment) (card_of card) }
{
    match card {
        Card::File { size, touch, owner } => Card::File {
            size,
            touch: Some(later(touch, moment)),
            owner,
        },
        Card::Directory => Card::Directory,
    }
}

/// The later of a touch, if there is one, and a moment.
fn later(touch: Option<Moment>, moment: Moment) -> Moment
    ensures { moment_of result ≡ later_moment (option_map moment_of touch) (moment_of moment) }
{
    match touch {
        None => moment,
        Some(touch) => touch.max(moment),
    }
}

/// A card without its touch.
pub(crate) fn settled(card: Card) -> Card
    ensures { card_of result ≡ card_settled (card_of card) }
{
    match card {
        Card::File { size, owner, .. } => Card::File {
            size,
            touch: None,
            owner,
        },
        Card::Directory => Card::Directory,
    }
}

/// The touch on a card, if there is one.
pub(crate) fn touch_on(card: Option<Card>) -> Option<Moment>
    ensures { option_map moment_of result ≡ touch_of (option_map card_of card) }
{
    match card {
        Some(Card::File { touch, .. }) => touch,
        Some(Card::Directory) => None,
        None => None,
    }
}

/// Whether there is a touch on a card, if there is a card.
pub(crate) fn is_touched(card: Option<Card>) -> bool
    ensures { result ≡ is_some (touch_of (option_map card_of card)) }
{
    touch_on(card).is_some()
}

/// Whether a card is there, of a file without a touch.
pub(crate) fn is_untouched(card: Option<Card>) -> bool
    ensures { result ≡ is_untouched (option_map card_of card) }
{
    match card {
        Some(Card::File { touch, .. }) => touch.is_none(),
        Some(Card::Directory) => false,
        None => false,
    }
}

/// A card with another size; that of a directory has none.
pub(crate) fn sized(card: Card, size: u64) -> Card
    ensures { card_of result ≡ card_sized size (card_of card) }
{
    match card {
        Card::File { touch, owner, .. } => Card::File { size, touch, owner },
        Card::Directory => Card::Directory,
    }
}

/// A card with another owner; that of a directory has none.
pub(crate) fn owned(card: Card, owner: Ownership) -> Card
    ensures { card_of result ≡ card_owned (ownership_of owner) (card_of card) }
{
    match card {
        Card::File { size, touch, .. } => Card::File { size, touch, owner },
        Card::Directory => Card::Directory,
    }
}
