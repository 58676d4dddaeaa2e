//! What one worker carries and keeps, put to what others did.

ghost use Rattle.std.specs.Prelude.{◌≡◌, ◌≤◌, ◌+◌, ◌++◌, option_to_list, vec_len, vec_capacity};
ghost use Rattle.filer_state.specs.state.Jobs.{batches_in};

use granted_calls::Envelope;
use parcels::Hand;
use turns::BatchInHand;

/// Puts the batch of a hand, if it has one.
pub fn push_batch(hands: &mut Vec<BatchInHand>, hand: BatchInHand)
    requires room { vec_len hands.old + 1 ≤ vec_capacity hands.old }
    ensures items { hands.new.items ≡ hands.old.items ++ batches_in hand }
    ensures len { vec_len hands.new ≤ vec_len hands.old + 1 }
    ensures capacity { vec_capacity hands.new ≡ vec_capacity hands.old }
{
    match hand.into_hand() {
        Hand::Empty => {}
        Hand::Fresh { volume, batch } => {
            hands.push_reserved(BatchInHand::new(Hand::Fresh { volume, batch }));
        }
        Hand::Dead { volume, batch } => {
            hands.push_reserved(BatchInHand::new(Hand::Dead { volume, batch }));
        }
    }
}

/// Puts the message that is kept, if one is.
pub fn push_kept(messages: &mut Vec<Envelope>, kept: Option<Envelope>)
    requires room { vec_len messages.old + 1 ≤ vec_capacity messages.old }
    ensures items { messages.new.items ≡ messages.old.items ++ option_to_list kept }
    ensures len { vec_len messages.new ≤ vec_len messages.old + 1 }
    ensures capacity { vec_capacity messages.new ≡ vec_capacity messages.old }
{
    match kept {
        Some(message) => messages.push_reserved(message),
        None => {}
    }
}
