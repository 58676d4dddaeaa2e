//! Where reply records come from.

ghost use Rattle.std.specs.Prelude.{List, [], ◌∷◌, ◌++◌, MatchOption};
ghost use Rattle.outboxes.specs.Messages.{ReplyMessage};

use outboxes::Record;

/// What records are taken from, one after another: what waits for a connection, say.
pub trait RecordSource {
    // Takes from the one to the other gave these, in order.
    ghost gave: { Self → List ReplyMessage → Self → Type 0 };

    // What is known once a take found nothing.
    ghost is_out: { Self → Type 0 };

    /// Takes the next record: `None` where there is none.
    fn take(&mut self) -> Option<Record>
        ensures { MatchOption result (gave self.old [] self.new × is_out self.new)
            (λ message. gave self.old (message ∷ []) self.new) };

    ghost gave_none: { (s : Self) → gave s [] s };

    ghost gave_more: { (s t u : Self) (ms others : List ReplyMessage)
        → gave s ms t
        → gave t others u
        → gave s (ms ++ others) u };
}
