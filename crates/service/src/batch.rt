//! What a hand carries, as a history has it.

ghost use Rattle.std.specs.Prelude.{◌≡◌};

use parcels::Hand;
use std::marker::Model;
use vbn_ranges::Batch;

/// A hand that an inner call filled, or emptied.
#[derive(Drop)]
pub struct BatchInHand {
    hand: Hand<Batch>,
}

impl Model for BatchInHand {
    ghost use Rattle.nfs_model.specs.Parts as parts;
    ghost use Rattle.service.specs.Hands.{hand_of, coded_hand};

    ghost Value = { parts.Hand };

    ghost coded = { coded_hand };

    ghost view = { λ b. hand_of b.hand };
}

impl BatchInHand {
    ghost use Rattle.std.specs.Prelude.{length};
    ghost use Rattle.nfs_model.specs.Parts.{batch_in};
    ghost use Rattle.service.specs.Hands.{hand_of};

    /// What a hand carries.
    pub fn new(hand: Hand<Batch>) -> BatchInHand
        ensures { result ≡ hand_of hand }
    {
        BatchInHand { hand }
    }

    /// The hand.
    pub fn hand(&self) -> &Hand<Batch>
        ensures { hand_of result.now ≡ self.now }
    {
        &self.hand
    }

    /// How many blocks it carries.
    pub fn count(&self) -> usize
        ensures { result ≡ length (batch_in self.now) }
    {
        match &self.hand {
            Hand::Empty => 0,
            Hand::Fresh { volume: _, batch } => batch.len(),
            Hand::Dead { volume: _, batch } => batch.len(),
        }
    }

    /// The hand, given up.
    pub fn into_hand(self) -> Hand<Batch>
        ensures { hand_of result ≡ self }
    {
        let BatchInHand { hand } = self;
        hand
    }
}
