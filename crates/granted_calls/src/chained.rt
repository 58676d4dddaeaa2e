//! What comes of turns one after the other, and where their answers go.

ghost use Rattle.std.specs.Prelude.{List, [], ◌∷◌, ◌++◌};
ghost use Rattle.outboxes.specs.Boxes.{Addressed};

use crate::answer::Answer;
use affinity::Affinity;
use outboxes::Outboxes;
use std::sync::atomic::{AtomicBool, Ordering};

/// What came of turns one after the other, of which each but the last finished a call.
#[derive(Clone, Copy)]
pub enum Chained {
    /// The last finished its call too.
    Done,
    /// The last call has to run elsewhere. Its message waits again, or is kept.
    Moved,
    /// The word of a node was found taken. The message waits again, or is kept.
    Busy { node: Affinity, word: u64 },
    /// 2^62 calls were finished. The message waits again, or is kept.
    Worn,
    /// No message waited.
    Idle,
}

impl Chained {
    ghost use Rattle.std.specs.Prelude.{◌≡◌};
    ghost use Rattle.granted_calls.specs.Chains.{each_done};

    /// Whether each of the calls was finished.
    pub fn is_done(self) -> bool
        ensures { result ≡ each_done self }
    {
        match self {
            Chained::Done => true,
            Chained::Moved => false,
            Chained::Busy { node: _, word: _ } => false,
            Chained::Worn => false,
            Chained::Idle => false,
        }
    }
}

/// What takes the answers of turns.
pub trait AnswerSink: Sized {
    // These came to it between the two, in order, and nothing else did.
    ghost took: { Self → List Addressed → Self → Type 0 };

    /// Takes an answer.
    fn take_answer(&mut self, answer: Answer)
        ensures { took self.old (answer ∷ []) self.new };

    ghost took_none: { (s : Self) → took s [] s };

    ghost took_more: { (s t u : Self) (xs ys : List Addressed)
        → took s xs t
        → took t ys u
        → took s (xs ++ ys) u };
}

impl AnswerSink for Outboxes {
    ghost use Rattle.granted_calls.specs.Chains.{HasPutAll};
    ghost use Rattle.granted_calls.specs.lemmas.Putting.{put_none, put_more};

    ghost took = { HasPutAll };

    fn take_answer(&mut self, answer: Answer) {
        drop(answer.put_into(self));
    }

    ghost took_none = { put_none };

    ghost took_more = { put_more };
}

/// Where a worker that was refused a node leaves word for the one that has it. Nothing is promised
/// of when it ends, nor of who gets the node.
pub trait Hint {
    /// A worker was refused this node.
    fn ask(&self, node: Affinity);

    /// Whether who has this node should end.
    fn is_asked(&self, node: Affinity) -> bool;
}

/// One word for all nodes: the first that looks ends.
pub struct Wanted {
    asked: AtomicBool,
}

// By hand, so that crates above have no proof of the drop of each of its parts.
impl Drop for Wanted {
    fn drop(self) {
        let Wanted { asked: _ } = self;
    }
}

impl Wanted {
    /// Nobody was refused.
    pub fn new() -> Wanted {
        Wanted {
            asked: AtomicBool::new(false),
        }
    }
}

impl Hint for Wanted {
    fn ask(&self, _node: Affinity) {
        self.asked.store(true, Ordering::SeqCst);
    }

    fn is_asked(&self, _node: Affinity) -> bool {
        self.asked.load(Ordering::SeqCst) && self.asked.swap(false, Ordering::SeqCst)
    }
}
