//! What comes of turns whose answers were put.

use affinity::Affinity;
use nfs_values::ConnectionNumber;

/// What came of a turn whose answer, if there was one, was put into the outboxes.
pub enum Worked {
    /// A call of this connection is finished, and its answer was put.
    Done(ConnectionNumber),
    /// A call has to run elsewhere. Its message waits again, or is kept.
    Moved,
    /// The word of a node was found taken. The message waits again, or is kept.
    Busy { node: Affinity, word: u64 },
    /// 2^62 calls were finished. The message waits again, or is kept.
    Worn,
    /// No message waited.
    Idle,
}
